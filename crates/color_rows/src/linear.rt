// Values that are linear in a point's three codes, and the rows whose whole parts are their codes.
ghost use Rattle.std.specs.Prelude.{◌≡◌, ◌+◌, ◌^◌, ◌≤◌};
ghost use Rattle.color_rows.specs.inner.Rows.{coded_of, difference_of, floats_of};
ghost use Rattle.color_rows.specs.inner.Sizes.{Small};

use color_line::FloatRow;
use floats::{Ends, FloatEnds};
use scale::Scale;

// plus0 x + plus1 y + plus2 z + plus - (minus0 x + minus1 y + minus2 z + minus).
#[derive(Clone, Copy)]
pub struct Linear {
    pub plus0: u64,
    pub plus1: u64,
    pub plus2: u64,
    pub plus: u64,
    pub minus0: u64,
    pub minus1: u64,
    pub minus2: u64,
    pub minus: u64,
}

// sum / (2 half). Every divisor of the equations is even.
#[derive(Clone, Copy)]
pub struct Value {
    pub sum: Linear,
    pub half: u64,
}

// The code is the whole part of sum / over, within the ends, and is cut where that lies outside them.
#[derive(Clone, Copy)]
pub struct Row {
    pub sum: Linear,
    pub over: u64,
    pub ends: Ends,
}

// The row whose whole part is the code of a value on a scale: 1/2 + span * value + base. It serves every range: the paper's
// two roundings differ only below 0, where both clamp to the low end, and what they take to be cut there the scale's ends tell.
fn coded(value: Value, span: u64, to: Scale) -> Row
    requires { Small (coded_of value span to) }
    ensures { result ≡ coded_of value span to }
{
    let sum = value.sum;
    let ends = float_scale::ends(to);
    Row {
        sum: Linear {
            plus0: span * sum.plus0,
            plus1: span * sum.plus1,
            plus2: span * sum.plus2,
            plus: span * sum.plus + (2 * to.base as u64 + 1) * value.half,
            minus0: span * sum.minus0,
            minus1: span * sum.minus1,
            minus2: span * sum.minus2,
            minus: span * sum.minus,
        },
        over: 2 * value.half,
        ends,
    }
}

// plus - minus in f64, exactly. (A signed number becomes a float in one instruction, and an unsigned one in several.)
fn difference(plus: u64, minus: u64) -> f64
    requires { plus + minus ≤ 2 ^ 53 }
    ensures { result ≡ difference_of plus minus }
{
    (plus as i64 - minus as i64) as f64
}

// The row in f64, exactly: no number is above 2^53.
fn floats(row: Row) -> FloatRow
    requires { Small row }
    ensures { result ≡ floats_of row }
{
    let sum = row.sum;
    FloatRow {
        first: difference(sum.plus0, sum.minus0),
        second: difference(sum.plus1, sum.minus1),
        third: difference(sum.plus2, sum.minus2),
        more: difference(sum.plus + 4096 * row.over, sum.minus),
        over: row.over as f64,
        ends: FloatEnds::from(row.ends),
    }
}

pub(crate) fn float_row(value: Value, span: u64, to: Scale) -> FloatRow
    requires { Small (coded_of value span to) }
    ensures { result ≡ floats_of (coded_of value span to) }
{
    floats(coded(value, span, to))
}
