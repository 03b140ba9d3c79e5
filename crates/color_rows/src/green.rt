// G' out of narrow range. As the equation stands its divisor would pass 2^40 and its sums 2^53, which is more than the f64
// division allows. So the factors that its terms have in common are taken out beforehand (`color_numbers` has the tables).
ghost use Rattle.std.specs.Prelude.{◌≡◌};
ghost use Rattle.color_numbers.specs.inner.Sizes.{SmallGreen, SmallRatio, SmallSpread};
ghost use Rattle.color_rows.specs.inner.Green.{narrow_green_value};

use crate::linear::{Linear, Value};
use color_numbers::{GreenTerms, Ratio, Spread};

// G' for a ratio whose span the row is then given: the ratio's whole stands in the divisor in place of 21 s.
pub(crate) fn green_of_narrow(terms: GreenTerms, from: Spread, ratio: Ratio) -> Value
    requires { SmallGreen terms × SmallSpread from × SmallRatio ratio }
    ensures { result ≡ narrow_green_value terms from ratio }
{
    Value {
        sum: Linear {
            plus0: terms.luma,
            plus1: 0,
            plus2: 0,
            plus: (terms.blue + terms.red) * from.neutral,
            minus0: 0,
            minus1: terms.blue,
            minus2: terms.red,
            minus: terms.luma * from.black,
        },
        half: terms.half * ratio.whole,
    }
}
