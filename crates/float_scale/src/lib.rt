// A scale in f64, and the code of a number by one product and one sum.
#![tactic(auto)]

ghost use Rattle.std.specs.Prelude.{◌≡◌};
ghost use Rattle.float_scale.specs.inner.Floats.{ends_of, float_scale, code_in};

use floats::{Ends, FloatEnds};
use fractions::Clamped;
use scale::{Rounding, Scale};

// A scale in f64, worked out once for a line of values.
#[derive(Clone, Copy)]
pub struct FloatScale {
    pub span: f64,
    pub middle: f64,
    pub ends: FloatEnds,
}

// The ends of the clamp. The paper's two roundings differ only below 0, and there only at a half: Round takes -1/2 to -1, which
// is cut, and floor(1/2 + x) takes it to 0.
pub fn ends(scale: Scale) -> Ends
    ensures { result ≡ ends_of scale }
{
    let low = scale.low;
    let high = scale.high;
    let strict = match scale.rounding {
        Rounding::HalfUp => false,
        Rounding::HalfAway => true,
    };
    Ends { low, high, strict }
}

impl From<Scale> for FloatScale {
    ghost from_gives = { λ scale r. r ≡ float_scale scale };

    // The scale in f64: the span, base + 1/2 with 4096 more, and the ends.
    fn from(scale: Scale) -> FloatScale {
        FloatScale {
            span: scale.span as f64,
            middle: (2 * scale.base as u32 + 8193) as f64 * 0.5,
            ends: FloatEnds::from(ends(scale)),
        }
    }
}

impl FloatScale {
    // The code of a number: the whole part of span * value + base + 1/2, within the ends, and whether it lay outside them. Of an
    // f32 the product is exact, 13 digits by 24. The sum, with 4096 more, keeps 40 digits below the binary point. Where it has
    // more than these, the product is less than 1/32, and the sum so near to a half that its whole part stays. So no code depends on
    // what is rounded, on a scale of the paper. (On any other, and for a NaN, this is what the same steps give.)
    pub fn code(self, value: f64) -> Clamped
        ensures { result ≡ code_in self value }
    {
        let ends = self.ends;
        ends.clamp(value * self.span + self.middle)
    }
}
