// A packed line of points of their own unpacked to codes, three a point in channel order (document 01, "Layout" and "Codes and
// floats").
#![tactic(auto)]

ghost use Rattle.std.specs.Prelude.{◌≡◌, length};
ghost use Rattle.line.specs.Answer.{unpack_answer, unpack_output, of_points};

use layout::Layout;
use refusal::Refusal;

mod points;

// Unpacks a line of points of their own to codes. A layout of groups is refused as one that the paper has not. Refused: 9, then
// 13.
pub fn unpack_points(layout: Layout, packed: &[u8], codes: &mut [u16]) -> Result<usize, Refusal>
    ensures answer { result ≡ of_points layout (unpack_answer layout (length packed.now) (length codes.old)) (Err Refusal.Outside) }
    ensures memory { codes.new ≡ of_points layout (unpack_output layout packed.now codes.old) codes.old }
{
    if !layout.valid_points() {
        return Err(Refusal::Outside);
    }
    let size = layout.bytes as usize;
    let n = packed.len() / size;
    if !((packed.len() % size == 0) & (n <= line::MOST_POINTS) & (codes.len() == 3 * n)) {
        return Err(Refusal::WrongLineOrOutput);
    }
    points::all(layout, packed, codes, n);
    Ok(n)
}
