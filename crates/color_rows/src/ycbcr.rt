// R'G'B' to Y'CbCr: Y', Cb and Cr, linear in the codes of R', G', B'.
ghost use Rattle.std.specs.Prelude.{◌≡◌};
ghost use Rattle.color_numbers.specs.inner.Sizes.{SmallWeights, SmallNumbers};
ghost use Rattle.color_rows.specs.inner.Rows.{luma_value, cb_value, cr_value, ycbcr_rows};

use crate::linear::{Linear, Value, float_row};
use color_equations::Weights;
use color_line::FloatRows;
use color_numbers::Numbers;
use parameters::Kind;
use scale::Scale;

// Y' = KR R' + KG G' + KB B', with KG = 1 - KR - KB.
fn luma(w: Weights, from: Scale) -> Value
    requires { SmallWeights w }
    ensures { result ≡ luma_value w from }
{
    let red = w.red as u64;
    let blue = w.blue as u64;
    Value {
        sum: Linear {
            plus0: red,
            plus1: 10000 - red - blue,
            plus2: blue,
            plus: 0,
            minus0: 0,
            minus1: 0,
            minus2: 0,
            minus: 10000 * from.base as u64,
        },
        half: 5000 * from.span as u64,
    }
}

// Cb = (B' - Y') / (2 (1 - KB)). The base of B' and that of Y' are one, and fall away.
fn cb(w: Weights, from: Scale) -> Value
    requires { SmallWeights w }
    ensures { result ≡ cb_value w from }
{
    let red = w.red as u64;
    let blue = w.blue as u64;
    Value {
        sum: Linear {
            plus0: 0,
            plus1: 0,
            plus2: 10000 - blue,
            plus: 0,
            minus0: red,
            minus1: 10000 - red - blue,
            minus2: 0,
            minus: 0,
        },
        half: (10000 - blue) * from.span as u64,
    }
}

// Cr = (R' - Y') / (2 (1 - KR)). (Not one function with Cb: the places of the coefficients differ, and as arguments would hide
// the equation.)
fn cr(w: Weights, from: Scale) -> Value
    requires { SmallWeights w }
    ensures { result ≡ cr_value w from }
{
    let red = w.red as u64;
    let blue = w.blue as u64;
    Value {
        sum: Linear {
            plus0: 10000 - red,
            plus1: 0,
            plus2: 0,
            plus: 0,
            minus0: 0,
            minus1: 10000 - red - blue,
            minus2: blue,
            minus: 0,
        },
        half: (10000 - red) * from.span as u64,
    }
}

// The rows of Y', Cb and Cr.
pub(crate) fn rows(numbers: Numbers) -> FloatRows
    requires { SmallNumbers numbers }
    ensures { result ≡ ycbcr_rows numbers }
{
    let w = numbers.weights;
    let depth = numbers.depth;
    let from = numbers.from;
    let to = numbers.to;
    let rgb = Scale::of(from, depth, Kind::Brightness);
    let y = Scale::of(to, depth, Kind::Brightness);
    let c = Scale::of(to, depth, Kind::Difference);
    FloatRows {
        channel0: float_row(luma(w, rgb), y.span as u64, y),
        channel1: float_row(cb(w, rgb), c.span as u64, c),
        channel2: float_row(cr(w, rgb), c.span as u64, c),
    }
}
