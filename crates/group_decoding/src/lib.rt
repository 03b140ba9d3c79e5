// A packed line of groups, four bytes Cb, Y', Cr, Y' for two points that share their colour, decoded to floats, three a point in
// channel order (request A6).
#![tactic(auto)]

ghost use Rattle.std.specs.Prelude.{◌≡◌, Err, length};
ghost use Rattle.line.specs.Answer.{of_groups};
ghost use Rattle.line_values.specs.Decode.{decode_answer, decode_output};

use layout::Layout;
use refusal::Refusal;

mod groups;

// Decodes a line of groups to values: both points of a group take its colour. A layout of points of their own is refused as one
// that the paper has not. Refused: 9, then 13.
pub fn decode_groups(layout: Layout, packed: &[u8], out: &mut [f32]) -> Result<usize, Refusal>
    ensures answer { result ≡ of_groups layout (decode_answer layout (length packed.now) (length out.old)) (Err Refusal.Outside) }
    ensures memory { out.new ≡ of_groups layout (decode_output layout packed.now out.old) out.old }
{
    if !layout.grouped() {
        return Err(Refusal::Outside);
    }
    let scales = scales::of_groups(layout).ok_or(Refusal::Outside)?;
    let n = packed.len() / 4;
    if !((packed.len() % 4 == 0) & (2 * n <= line::MOST_POINTS) & (out.len() == 3 * (2 * n))) {
        return Err(Refusal::WrongLineOrOutput);
    }
    groups::all(layout, scales, packed, out, n);
    Ok(2 * n)
}
