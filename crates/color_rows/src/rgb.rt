// Y'CbCr to R'G'B': R', G' and B', linear in the codes of Y', Cb, Cr.
ghost use Rattle.std.specs.Prelude.{◌≡◌};
ghost use Rattle.parameters.specs.declared.kind.Kind.TheVariants.{Brightness};
ghost use Rattle.parameters.specs.Parameters.{bits_of};
ghost use Rattle.scale.specs.Scale.{scale_of};
ghost use Rattle.color_numbers.specs.inner.Spread.{spread_of};
ghost use Rattle.color_numbers.specs.inner.Sizes.{SmallWeights, SmallNumbers, SmallSpread, FullSpread};
ghost use Rattle.color_rows.specs.inner.Rows.{floats_of, red_value, blue_value, green_value, green_row, rgb_rows};

use crate::green::green_of_narrow;
use crate::linear::{Linear, Value, float_row};
use color_equations::Weights;
use color_line::{FloatRow, FloatRows};
use color_numbers::{Numbers, Spread, ratio_of, spread_of};
use parameters::{Kind, Range};
use scale::Scale;

// R' = Y' + 2 (1 - KR) Cr.
fn red(w: Weights, from: Spread) -> Value
    requires { SmallWeights w × SmallSpread from }
    ensures { result ≡ red_value w from }
{
    let luma = 10000 * from.luma;
    let chroma = 2 * (10000 - w.red as u64) * from.chroma;
    Value {
        sum: Linear {
            plus0: luma,
            plus1: 0,
            plus2: chroma,
            plus: 0,
            minus0: 0,
            minus1: 0,
            minus2: 0,
            minus: luma * from.black + chroma * from.neutral,
        },
        half: 5000 * from.whole,
    }
}

// B' = Y' + 2 (1 - KB) Cb. (Not one function with R': the place of the coefficient differs, and as an argument would hide the
// equation.)
fn blue(w: Weights, from: Spread) -> Value
    requires { SmallWeights w × SmallSpread from }
    ensures { result ≡ blue_value w from }
{
    let luma = 10000 * from.luma;
    let chroma = 2 * (10000 - w.blue as u64) * from.chroma;
    Value {
        sum: Linear {
            plus0: luma,
            plus1: chroma,
            plus2: 0,
            plus: 0,
            minus0: 0,
            minus1: 0,
            minus2: 0,
            minus: luma * from.black + chroma * from.neutral,
        },
        half: 5000 * from.whole,
    }
}

// G' from the equation for Y', out of a full range: G' = Y' - (2 KR (1 - KR) Cr + 2 KB (1 - KB) Cb) / KG, with
// KG = 1 - KR - KB.
fn green_of_full(w: Weights, from: Spread) -> Value
    requires { SmallWeights w × FullSpread from }
    ensures { result ≡ green_value w from }
{
    let red = w.red as u64;
    let blue = w.blue as u64;
    let green = 10000 * (10000 - red - blue);
    let of_red = 2 * red * (10000 - red);
    let of_blue = 2 * blue * (10000 - blue);
    let chroma = from.chroma;
    Value {
        sum: Linear {
            plus0: green * from.luma,
            plus1: 0,
            plus2: 0,
            plus: (of_blue + of_red) * chroma * from.neutral,
            minus0: 0,
            minus1: of_blue * chroma,
            minus2: of_red * chroma,
            minus: green * from.luma * from.black,
        },
        half: 5000 * (10000 - red - blue) * from.whole,
    }
}

// G' out of each range.
fn green_row(numbers: Numbers, spread: Spread, out: Scale) -> FloatRow
    requires small_numbers { SmallNumbers numbers × (spread ≡ spread_of numbers.from (bits_of numbers.depth)) }
    requires out_value { out ≡ scale_of numbers.to (bits_of numbers.depth) Brightness }
    ensures { result ≡ floats_of (green_row numbers) }
{
    let depth = numbers.depth;
    let from = numbers.from;
    let to = numbers.to;
    match from {
        Range::Narrow => {
            let ratio = ratio_of(to, depth);
            float_row(
                green_of_narrow(numbers.green, spread, ratio),
                ratio.span,
                out,
            )
        }
        Range::Full | Range::LegacyFull => {
            float_row(green_of_full(numbers.weights, spread), out.span as u64, out)
        }
    }
}

// The rows of R', G' and B'.
pub(crate) fn rows(numbers: Numbers) -> FloatRows
    requires { SmallNumbers numbers }
    ensures { result ≡ rgb_rows numbers }
{
    let w = numbers.weights;
    let depth = numbers.depth;
    let from = numbers.from;
    let to = numbers.to;
    let spread = spread_of(from, depth);
    let out = Scale::of(to, depth, Kind::Brightness);
    FloatRows {
        channel0: float_row(red(w, spread), out.span as u64, out),
        channel1: green_row(numbers, spread, out),
        channel2: float_row(blue(w, spread), out.span as u64, out),
    }
}
