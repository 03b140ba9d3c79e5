// The C interface of colors: include/imurraqi.h declares the same functions.
#![tactic(auto)]

ghost use Rattle.std.specs.Prelude.{◌≡◌, length};
ghost use Rattle.color_equations.specs.Line.{to_ycbcr_answer, to_ycbcr_output, to_rgb_answer, to_rgb_output};
ghost use Rattle.c_types.specs.Numbers.{clamped_number, cuts_after};

use c_types::clamped_number;

// Converts a line of codes of R', G', B', three a point, to Y', Cb, Cr. Answers the count of points, and behind the
// last pointer how many codes that came out were cut.
#[unsafe(no_mangle)]
pub extern "C" fn imurraqi_rgb_to_ycbcr(
    primaries: u8,
    depth: u8,
    range_in: u8,
    range_out: u8,
    codes: &[u16],
    out: &mut [u16],
    cuts: &mut u32,
) -> i64
    ensures answer { result ≡ clamped_number (to_ycbcr_answer primaries depth range_in range_out codes.now (length out.old)) }
    ensures memory { out.new ≡ to_ycbcr_output primaries depth range_in range_out codes.now out.old }
    ensures cuts { cuts.new ≡ cuts_after (to_ycbcr_answer primaries depth range_in range_out codes.now (length out.old)) cuts.old }
{
    clamped_number(
        color_model::rgb_to_ycbcr(primaries, depth, range_in, range_out, codes, out),
        cuts,
    )
}

// Converts a line of codes of Y', Cb, Cr to R', G', B' likewise.
#[unsafe(no_mangle)]
pub extern "C" fn imurraqi_ycbcr_to_rgb(
    primaries: u8,
    depth: u8,
    range_in: u8,
    range_out: u8,
    codes: &[u16],
    out: &mut [u16],
    cuts: &mut u32,
) -> i64
    ensures answer { result ≡ clamped_number (to_rgb_answer primaries depth range_in range_out codes.now (length out.old)) }
    ensures memory { out.new ≡ to_rgb_output primaries depth range_in range_out codes.now out.old }
    ensures cuts { cuts.new ≡ cuts_after (to_rgb_answer primaries depth range_in range_out codes.now (length out.old)) cuts.old }
{
    clamped_number(
        color_model::ycbcr_to_rgb(primaries, depth, range_in, range_out, codes, out),
        cuts,
    )
}
