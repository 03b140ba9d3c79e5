// How the codes of one range, depth and kind stand for values (document 01, "Codes and floats").
#![tactic(auto)]

ghost use Rattle.std.specs.Prelude.{◌≡◌};
ghost use Rattle.parameters.specs.Parameters.{bits_of};
ghost use Rattle.scale.specs.Scale.{low_end, high_end, scale_of};
ghost use Rattle.scale.specs.Value.{value_of};

use parameters::{Depth, Kind, Range};

// How a number between two codes is rounded: floor(1/2 + x), or Round(x), a half away from zero.
#[derive(Clone, Copy)]
pub enum Rounding {
    HalfUp,
    HalfAway,
}

// `base` is the code of the value 0, `span` the codes in a unit of value, `top` the highest code, `low` and `high` the ends
// that the code of a value is clamped to. `rounding` says which of the paper's roundings it has: clamped at 0 or above the two
// give one code, and only what is cut tells them apart.
#[derive(Clone, Copy)]
pub struct Scale {
    pub base: u16,
    pub span: u16,
    pub top: u16,
    pub low: u16,
    pub high: u16,
    pub rounding: Rounding,
}

// The ends that the code of a value is clamped to. Narrow ones keep away from the lowest and the highest codes, which a broadcast
// desk takes for timing: s .. 255s - 1. Full ones have 0 .. 2^n - 1, and the older full range 4092 at 12 bits.
fn low_end(range: Range, depth: Depth) -> u16
    ensures { result ≡ low_end range (bits_of depth) }
{
    match range {
        Range::Narrow => depth.step(),
        Range::Full | Range::LegacyFull => 0,
    }
}

fn high_end(range: Range, depth: Depth) -> u16
    ensures { result ≡ high_end range (bits_of depth) }
{
    match (range, depth) {
        (Range::Narrow, _) => 255 * depth.step() - 1,
        (Range::LegacyFull, Depth::Twelve) => 4092,
        (Range::Full | Range::LegacyFull, _) => depth.top(),
    }
}

impl Scale {
    // The paper's scale of a range, depth and kind.
    pub fn of(range: Range, depth: Depth, kind: Kind) -> Scale
        ensures { result ≡ scale_of range (bits_of depth) kind }
    {
        let s = depth.step();
        let m = depth.top();
        let whole = m + 1;
        let middle = (m + 1) / 2;
        let (base, span, rounding) = match (range, kind) {
            (Range::Narrow, Kind::Brightness) => (16 * s, 219 * s, Rounding::HalfUp),
            (Range::Narrow, Kind::Difference) => (128 * s, 224 * s, Rounding::HalfUp),
            (Range::Full, Kind::Brightness) => (0, m, Rounding::HalfAway),
            (Range::Full, Kind::Difference) => (middle, m, Rounding::HalfAway),
            (Range::LegacyFull, Kind::Brightness) => (0, whole, Rounding::HalfUp),
            (Range::LegacyFull, Kind::Difference) => (middle, whole, Rounding::HalfUp),
        };
        Scale {
            base,
            span,
            top: m,
            low: low_end(range, depth),
            high: high_end(range, depth),
            rounding,
        }
    }

    // The value of a code: whole numbers that f32 holds exactly, and one division.
    pub fn value(self, code: u16) -> f32
        ensures { result ≡ value_of self code }
    {
        (code as i32 - self.base as i32) as f32 / self.span as f32
    }
}
