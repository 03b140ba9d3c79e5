// The whole part of an f64 without a cast: from its bit pattern, once it is brought to 4096 and more, below 8192; and whether
// it had to be brought there.
#![tactic(auto)]

ghost use Rattle.std.specs.Prelude.{◌≡◌, not, cond, ◌^◌, ◌<◌, T};
ghost use Rattle.std.specs.Float.Ieee.{is_nan, lt};
ghost use Rattle.floats.specs.inner.Floor.{in_units, in_floats, brought, whole_of, clamped_by};

use fractions::Clamped;

// The ends of a clamp. A number, to which the half of its rounding has been added, is cut if its whole part is below `low` or above
// `high`; where `strict` says so, also if it is `low` itself, with nothing behind its point.
#[derive(Clone, Copy)]
pub struct Ends {
    pub low: u16,
    pub high: u16,
    pub strict: bool,
}

// The ends in f64, worked out once for a line: the first number that is not cut, with 4096 more, and the highest code.
#[derive(Clone, Copy)]
pub struct FloatEnds {
    pub first: f64,
    pub high: u16,
}

// 2^40: two neighbours of the f64s from 4096 to 8192 are one over it apart.
const UNITS: u64 = 0x100_0000_0000;

// 2^-40, exactly.
const UNIT: f64 = 0.0000000000009094947017729282;

// k / 2^40, exactly. (A signed number becomes a float in one instruction, and an unsigned one in several.)
fn in_units(k: u64) -> f64
    requires { k < 2 ^ 53 }
    ensures { result ≡ in_units k }
{
    k as i64 as f64 * UNIT
}

// The larger of t and low: low where t is a NaN. (Written so, this and the next are one instruction each, maximum and
// minimum, whose answer takes t's register.)
fn at_least(t: f64, low: f64) -> f64
    ensures { result ≡ cond (lt low t) t low }
{
    if low < t { t } else { low }
}

// The smaller of t and high.
fn at_most(t: f64, high: f64) -> f64
    ensures { result ≡ cond (lt t high) t high }
{
    if t < high { t } else { high }
}

// The whole part, less 4096, of a number from 4096 to below 8192: all of these have one exponent, so that it stands in bits
// 40 to 51.
#[tactic(auto, unfolding(crate::specs::inner::Floor::whole_of))]
fn whole(t: f64) -> u16
    requires { T (not (is_nan t)) }
    ensures { result ≡ whole_of t }
{
    (f64::to_bits(t) / UNITS % 4096) as u16
}

impl From<Ends> for FloatEnds {
    ghost from_gives = { λ ends r. r ≡ in_floats ends };

    // The ends in f64. (No code has more than 12 bits; the remainder is there for any other.)
    fn from(ends: Ends) -> FloatEnds {
        FloatEnds {
            first: in_units(((ends.low % 4096) as u64 + 4096) * UNITS + ends.strict as u64),
            high: ends.high,
        }
    }
}

impl FloatEnds {
    // t, brought to the nearest number from the first on that is below 4097 + high: a number within is left as it is. (The upper end
    // is made from a whole number each time, which the compiler does once for a loop. So it is a number, whatever the first is, and
    // what comes out is one too.)
    fn bring(self, t: f64) -> f64
        ensures { result ≡ brought self t }
    {
        let last = (self.high as u32 + 4097) as f64 - UNIT;
        at_most(at_least(t, self.first), last)
    }

    // The whole part of t - 4096 within the ends, and whether t - 4096 lay outside them.
    pub fn clamp(self, t: f64) -> Clamped
        ensures { result ≡ clamped_by self t }
    {
        let within = self.bring(t);
        Clamped {
            code: whole(within),
            cut: within != t,
        }
    }
}
