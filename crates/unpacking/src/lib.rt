// A packed line of points or groups unpacked to codes, three a point in channel order (document 01, "Layout" and "Codes and
// floats").
#![tactic(auto)]

ghost use Rattle.std.specs.Prelude.{◌≡◌, length};
ghost use Rattle.line.specs.Answer.{unpack_answer, unpack_output};

use layout::Layout;
use refusal::Refusal;

// Unpacks a line of points or groups to codes, three a point. Refused: 9, then 13.
pub fn unpack_line(layout: Layout, packed: &[u8], codes: &mut [u16]) -> Result<usize, Refusal>
    ensures answer { result ≡ unpack_answer layout (length packed.now) (length codes.old) }
    ensures memory { codes.new ≡ unpack_output layout packed.now codes.old }
{
    if layout.grouped() {
        group_unpacking::unpack_groups(layout, packed, codes)
    } else {
        point_unpacking::unpack_points(layout, packed, codes)
    }
}
