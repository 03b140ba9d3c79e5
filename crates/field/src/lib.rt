// A channel's field: which bytes of a point hold its code, and the code in just these bytes (request A3).
#![tactic(auto)]

ghost use Rattle.std.specs.Prelude.{◌≡◌};
ghost use Rattle.field.specs.Answer.{field_known, code_answer, bytes_answer};
ghost use Rattle.field.specs.inner.Read.{one_count};

use layout::Layout;
use refusal::Refusal;

mod field;

pub use field::Field;

// Whether the paper has the layout, of points of their own, and the layout such a channel.
fn known(layout: Layout, channel: u8) -> bool
    ensures { result ≡ field_known layout channel }
{
    layout.valid_points() & parameters::channel_known(channel)
}

// The code of a channel, in just the bytes that hold its field. A group has no field of one point. Refused: 9, then 13.
pub fn field_code(layout: Layout, channel: u8, bytes: &[u8]) -> Result<u16, Refusal>
    ensures { result ≡ code_answer layout channel bytes.now }
{
    if !known(layout, channel) {
        return Err(Refusal::Outside);
    }
    let field = Field::of(layout, channel);
    if bytes.len() != field.count {
        return Err(Refusal::WrongLineOrOutput);
    }
    Ok(field.code(bytes))
}

// The bytes of a point that hold the field of a channel. Refused: 9.
pub fn field_bytes(layout: Layout, channel: u8) -> Result<Field, Refusal>
    ensures { result ≡ bytes_answer layout channel }
{
    if known(layout, channel) {
        Ok(Field::of(layout, channel))
    } else {
        Err(Refusal::Outside)
    }
}

// Whether as many bytes hold each of the three fields, so that one choice does for all.
pub fn one_count(layout: Layout) -> bool
    ensures { result ≡ one_count layout }
{
    let field0 = Field::of(layout, 0);
    let field1 = Field::of(layout, 1);
    let field2 = Field::of(layout, 2);
    (field1.count == field0.count) & (field2.count == field0.count)
}
