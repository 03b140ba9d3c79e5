// A line of floats, three a point in channel order, encoded to points of their own (document 01, "Codes and floats").
#![tactic(auto)]

ghost use Rattle.std.specs.Prelude.{◌≡◌, Err, length};
ghost use Rattle.line.specs.Answer.{of_points};
ghost use Rattle.line_values.specs.Encode.{encode_answer, encode_output};

use layout::Layout;
use refusal::Refusal;

mod encode;

// Encodes a line of values to points of their own, and counts the values that were cut. No byte is written before every value
// is seen to be a number. A layout of groups is refused as one that the paper has not. Refused: 9, then 13, then 12.
pub fn encode_points(
    layout: Layout,
    values: &[f32],
    out: &mut [u8],
) -> Result<(usize, u32), Refusal>
    ensures answer { result ≡ of_points layout (encode_answer layout values.now (length out.old)) (Err Refusal.Outside) }
    ensures memory { out.new ≡ of_points layout (encode_output layout values.now out.old) out.old }
{
    let scales = scales::of_points(layout).ok_or(Refusal::Outside)?;
    let size = layout.bytes as usize;
    let n = values.len() / 3;
    if !((values.len() % 3 == 0) & (n <= line::MOST_POINTS) & (out.len() == size * n)) {
        return Err(Refusal::WrongLineOrOutput);
    }
    if !encode::all_numbers(values) {
        return Err(Refusal::NotANumber);
    }
    let cuts = encode::encode(layout, scales, values, out, n);
    Ok((n, line::cuts_told(cuts)))
}
