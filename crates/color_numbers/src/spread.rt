// The scales of Y'CbCr codes of each range and depth.
ghost use Rattle.std.specs.Prelude.{◌≡◌};
ghost use Rattle.parameters.specs.Parameters.{bits_of};
ghost use Rattle.color_numbers.specs.inner.Spread.{full_spread, spread_of};

use parameters::{Depth, Range};

// The scales of Y' and of Cb and Cr over one divisor: Y' is luma (y - black) / whole, and Cb is chroma (cb - neutral) / whole.
#[derive(Clone, Copy)]
pub struct Spread {
    pub luma: u64,
    pub chroma: u64,
    pub whole: u64,
    pub black: u64,
    pub neutral: u64,
}

// In a full range both scales have one span, and black is 0.
fn full_spread(span: u64, neutral: u64) -> Spread
    ensures { result ≡ full_spread span neutral }
{
    Spread {
        luma: 1,
        chroma: 1,
        whole: span,
        black: 0,
        neutral,
    }
}

// The spread of the codes that go in.
pub fn spread_of(range: Range, depth: Depth) -> Spread
    ensures { result ≡ spread_of range (bits_of depth) }
{
    let s = depth.step() as u64;
    let m = depth.top() as u64;
    let whole = m + 1;
    match range {
        Range::Narrow => Spread {
            luma: 224,
            chroma: 219,
            whole: 49056 * s,
            black: 16 * s,
            neutral: 128 * s,
        },
        Range::Full => full_spread(m, whole / 2),
        Range::LegacyFull => full_spread(whole, whole / 2),
    }
}
