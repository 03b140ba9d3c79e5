// The lower and upper numbers by which a sample states its range.
ghost use Rattle.std.specs.Prelude.{◌≡◌};
ghost use Rattle.parameters.specs.Parameters.{bits_of};
ghost use Rattle.descriptor_samples.specs.Limits.{limits_of};

use parameters::{Depth, Kind, Range};

#[derive(Clone, Copy)]
pub struct Limits {
    pub lower: u16,
    pub upper: u16,
}

impl Limits {
    // Those of a range.
    pub fn of(range: Range, depth: Depth, kind: Kind) -> Limits
        ensures { result ≡ limits_of range (bits_of depth) kind }
    {
        let s = depth.step();
        match (range, kind) {
            (Range::Narrow, Kind::Brightness) => Limits {
                lower: 16 * s,
                upper: 235 * s,
            },
            (Range::Narrow, Kind::Difference) => Limits {
                lower: 16 * s,
                upper: 240 * s,
            },
            (Range::Full, _) => Limits {
                lower: 0,
                upper: depth.top(),
            },
            (Range::LegacyFull, _) => Limits {
                lower: 0,
                upper: 256 * s,
            },
        }
    }
}
