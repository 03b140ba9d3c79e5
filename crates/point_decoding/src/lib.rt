// A packed line of points of their own decoded to floats, three a point in channel order (document 01, "Codes and floats").
#![tactic(auto)]

ghost use Rattle.std.specs.Prelude.{◌≡◌, Err, length};
ghost use Rattle.line.specs.Answer.{of_points};
ghost use Rattle.line_values.specs.Decode.{decode_answer, decode_output};

use layout::Layout;
use refusal::Refusal;

mod points;

// Decodes a line of points of their own to values. A layout of groups is refused as one that the paper has not. Refused: 9,
// then 13.
pub fn decode_points(layout: Layout, packed: &[u8], out: &mut [f32]) -> Result<usize, Refusal>
    ensures answer { result ≡ of_points layout (decode_answer layout (length packed.now) (length out.old)) (Err Refusal.Outside) }
    ensures memory { out.new ≡ of_points layout (decode_output layout packed.now out.old) out.old }
{
    let scales = scales::of_points(layout).ok_or(Refusal::Outside)?;
    let size = layout.bytes as usize;
    let n = packed.len() / size;
    if !((packed.len() % size == 0) & (n <= line::MOST_POINTS) & (out.len() == 3 * n)) {
        return Err(Refusal::WrongLineOrOutput);
    }
    points::all(layout, scales, packed, out, n);
    Ok(n)
}
