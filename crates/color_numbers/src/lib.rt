// What a conversion between R'G'B' and Y'CbCr is given: the paper's numbers, looked up, the scales of Y'CbCr codes, and the
// tables of G' out of narrow range.
#![tactic(auto)]

ghost use Rattle.std.specs.Prelude.{◌≡◌};
ghost use Rattle.color_numbers.specs.inner.Numbers.{known_numbers};

use crate::green::green_terms;
use color_equations::Weights;
use parameters::{Depth, Range};

mod green;
mod spread;

pub use green::{GreenTerms, Ratio, ratio_of};
pub use spread::{Spread, spread_of};

// `from` is the range of the codes that go in, and `to` that of those that come out.
#[derive(Clone, Copy)]
pub struct Numbers {
    pub weights: Weights,
    pub green: GreenTerms,
    pub depth: Depth,
    pub from: Range,
    pub to: Range,
}

// The numbers of a conversion, where the paper has it.
pub fn numbers_of(primaries: u8, depth: u8, range_in: u8, range_out: u8) -> Option<Numbers>
    ensures { result ≡ known_numbers primaries depth range_in range_out }
{
    let weights = Weights::of(primaries)?;
    let depth = Depth::of(depth)?;
    let from = Range::of(range_in)?;
    let to = Range::of(range_out)?;
    let green = green_terms(primaries);
    Some(Numbers {
        weights,
        green,
        depth,
        from,
        to,
    })
}
