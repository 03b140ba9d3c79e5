// Lines of codes between R'G'B' and Y'CbCr, exact, with one rounding (document 01, "Between R'G'B' and Y'CbCr").
#![tactic(auto)]

ghost use Rattle.std.specs.Prelude.{◌≡◌, length};
ghost use Rattle.std.specs.Prelude.{is_ok};
ghost use Rattle.lists.specs.Lists.{new_or_kept};
ghost use Rattle.color_equations.specs.Line.{converted_of, to_ycbcr_answer, to_ycbcr_output, to_rgb_answer, to_rgb_output};
ghost use Rattle.color_line.specs.inner.Rows.{rows_code};
ghost use Rattle.color_model.specs.inner.Answer.{answer_up_to};

use color_rows::Conversion;
use refusal::Refusal;

// Converts a line by a conversion that the paper has, and answers its points and how many codes were cut. Nothing is stored
// before every code is seen to fit. Refused: 13, then 14.
fn convert(conversion: Conversion, codes: &[u16], out: &mut [u16]) -> Result<(usize, u32), Refusal>
    ensures answer { result ≡ answer_up_to (rows_code conversion.rows) conversion.top codes.now (length out.old) }
    ensures memory { out.new ≡ new_or_kept (is_ok (answer_up_to (rows_code conversion.rows) conversion.top codes.now (length out.old))) (converted_of (rows_code conversion.rows) codes.now) out.old }
{
    let n = codes.len() / 3;
    if !((codes.len() % 3 == 0) & (n <= line::MOST_POINTS) & (out.len() == 3 * n)) {
        return Err(Refusal::WrongLineOrOutput);
    }
    if !line::all_within(codes, conversion.top) {
        return Err(Refusal::CodeTooHigh);
    }
    let cuts = color_line::convert(conversion.rows, codes, out);
    Ok((n, line::cuts_told(cuts)))
}

// Converts a line of R', G', B' to Y', Cb, Cr, by the weights of the primaries. Every code of the depth is taken; those that
// come out are clamped to the ends of their range, and the answer counts those that lay outside (A4). Refused: 9, then 13, then
// 14.
// (A `let .. else`, since `ok_or` and `?` would copy the conversion, some 200 bytes, twice for every call.)
pub fn rgb_to_ycbcr(
    primaries: u8,
    depth: u8,
    range_in: u8,
    range_out: u8,
    codes: &[u16],
    out: &mut [u16],
) -> Result<(usize, u32), Refusal>
    ensures answer { result ≡ to_ycbcr_answer primaries depth range_in range_out codes.now (length out.old) }
    ensures memory { out.new ≡ to_ycbcr_output primaries depth range_in range_out codes.now out.old }
{
    let Some(conversion) = color_rows::to_ycbcr(primaries, depth, range_in, range_out) else {
        return Err(Refusal::Outside);
    };
    convert(conversion, codes, out)
}

// Converts a line of Y', Cb, Cr to R', G', B' likewise. Refused: 9, then 13, then 14.
pub fn ycbcr_to_rgb(
    primaries: u8,
    depth: u8,
    range_in: u8,
    range_out: u8,
    codes: &[u16],
    out: &mut [u16],
) -> Result<(usize, u32), Refusal>
    ensures answer { result ≡ to_rgb_answer primaries depth range_in range_out codes.now (length out.old) }
    ensures memory { out.new ≡ to_rgb_output primaries depth range_in range_out codes.now out.old }
{
    let Some(conversion) = color_rows::to_rgb(primaries, depth, range_in, range_out) else {
        return Err(Refusal::Outside);
    };
    convert(conversion, codes, out)
}
