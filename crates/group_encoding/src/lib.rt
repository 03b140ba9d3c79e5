// A line of floats, three a point in channel order, encoded to groups, four bytes Cb, Y', Cr, Y' for two points that share their
// colour (request A6).
#![tactic(auto)]

ghost use Rattle.std.specs.Prelude.{◌≡◌, Err, length};
ghost use Rattle.line.specs.Answer.{of_groups};
ghost use Rattle.line_values.specs.Encode.{encode_answer, encode_output};

use layout::Layout;
use refusal::Refusal;

mod encode;
mod numbers;

// Encodes a line of values to groups, and counts the values that were cut. A group takes the colour of its first point; that of the
// second is not looked at. No byte is written before every other value is seen to be a number. A layout of points of their
// own is refused as one that the paper has not. Refused: 9, then 16, then 13, then 12.
pub fn encode_groups(
    layout: Layout,
    values: &[f32],
    out: &mut [u8],
) -> Result<(usize, u32), Refusal>
    ensures answer { result ≡ of_groups layout (encode_answer layout values.now (length out.old)) (Err Refusal.Outside) }
    ensures memory { out.new ≡ of_groups layout (encode_output layout values.now out.old) out.old }
{
    if !layout.grouped() {
        return Err(Refusal::Outside);
    }
    let scales = scales::of_groups(layout).ok_or(Refusal::Outside)?;
    let points = values.len() / 3;
    let n = points / 2;
    if (values.len() % 3 == 0) & !(points % 2 == 0) {
        return Err(Refusal::OddCount);
    }
    if !((values.len() % 3 == 0) & (points <= line::MOST_POINTS) & (out.len() == 4 * n)) {
        return Err(Refusal::WrongLineOrOutput);
    }
    if !numbers::all_numbers(values, n) {
        return Err(Refusal::NotANumber);
    }
    let cuts = encode::encode(layout, scales, values, out, n);
    Ok((points, line::cuts_told(cuts)))
}
