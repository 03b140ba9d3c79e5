// One sample.
ghost use Rattle.std.specs.Prelude.{◌≡◌};
ghost use Rattle.parameters.specs.Parameters.{bits_of};
ghost use Rattle.descriptor_samples.specs.Samples.{states};

use crate::limits::Limits;
use parameters::{Depth, Kind, Range};

// A sample by its numbers. `length` is n - 1.
#[derive(Clone, Copy)]
pub struct Sample {
    pub offset: u16,
    pub length: u8,
    pub channel: u8,
    pub position: u32,
    pub lower: u32,
    pub upper: u32,
}

impl Sample {
    // Whether it states a range.
    #[tactic(auto, unfolding(crate::specs::Samples::states))]
    pub(crate) fn states(self, model: u8, range: Range, depth: Depth) -> bool
        ensures { result ≡ states model range (bits_of depth) self }
    {
        let limits = Limits::of(range, depth, Kind::of(model, self.channel));
        (self.lower == limits.lower as u32) & (self.upper == limits.upper as u32)
    }
}
