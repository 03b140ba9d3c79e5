// Lines of picture points: unpacked to codes, packed from codes, decoded to values, encoded from values; one point, which is a
// line of one; and one channel's field of a point.
#![tactic(auto)]

pub use decoding::{decode_line, decode_point};
pub use encoding::{encode_line, encode_point};
pub use field::{Field, field_bytes, field_code};
pub use line::Point;
pub use packing::pack_line;
pub use refusal::Refusal;
pub use unpacking::unpack_line;
