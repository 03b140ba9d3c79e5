// The rows of a conversion between R'G'B' and Y'CbCr, worked out once for a line.
#![tactic(auto)]

ghost use Rattle.std.specs.Prelude.{◌≡◌};
ghost use Rattle.color_rows.specs.inner.Known.{known_to_ycbcr, known_to_rgb};

use color_line::FloatRows;
use color_numbers::numbers_of;

mod green;
mod linear;
mod rgb;
mod ycbcr;

// A conversion: a row for each channel, and the highest code that a line may have.
#[derive(Clone, Copy)]
pub struct Conversion {
    pub rows: FloatRows,
    pub top: u16,
}

// R', G', B' to Y', Cb, Cr.
pub fn to_ycbcr(primaries: u8, depth: u8, range_in: u8, range_out: u8) -> Option<Conversion>
    ensures { result ≡ known_to_ycbcr primaries depth range_in range_out }
{
    let numbers = numbers_of(primaries, depth, range_in, range_out)?;
    Some(Conversion {
        rows: ycbcr::rows(numbers),
        top: numbers.depth.top(),
    })
}

// Y', Cb, Cr to R', G', B'.
pub fn to_rgb(primaries: u8, depth: u8, range_in: u8, range_out: u8) -> Option<Conversion>
    ensures { result ≡ known_to_rgb primaries depth range_in range_out }
{
    let numbers = numbers_of(primaries, depth, range_in, range_out)?;
    Some(Conversion {
        rows: rgb::rows(numbers),
        top: numbers.depth.top(),
    })
}
