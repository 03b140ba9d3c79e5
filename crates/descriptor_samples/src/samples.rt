// All three samples.
ghost use Rattle.std.specs.Prelude.{◌≡◌, ◌+◌};
ghost use Rattle.parameters.specs.Parameters.{bits_of};
ghost use Rattle.descriptor_samples.specs.Samples.{all_state, range_in, each_once, one_depth, in_order, samples_right};

use crate::sample::Sample;
use parameters::{Depth, Range, channel_known};

// In the order in which they stand. Three names and not an array, since the contracts and the laws speak of each by its name, and
// nothing is done to all three that a loop would say more plainly.
#[derive(Clone, Copy)]
pub struct Samples {
    pub first: Sample,
    pub second: Sample,
    pub third: Sample,
}

impl Samples {
    // Whether n is 8, 10 or 12, and one for all three; what they hold is n - 1.
    fn one_depth(self) -> bool
        ensures { result ≡ one_depth self.first.length self.second.length self.third.length }
    {
        let length = self.first.length;
        Depth::known(length.saturating_add(1))
            & (self.second.length == length)
            & (self.third.length == length)
    }

    // Whether each of the three channels appears once.
    fn each_once(self) -> bool
        ensures { result ≡ each_once self.first.channel self.second.channel self.third.channel }
    {
        let (a, b, c) = (self.first.channel, self.second.channel, self.third.channel);
        channel_known(a) & channel_known(b) & channel_known(c) & (a != b) & (a != c) & (b != c)
    }

    // Whether the fields are in rising order, do not overlap and lie within a point of so many bytes.
    fn in_order(self, bytes: u8) -> bool
        ensures { result ≡ in_order (self.first.length + 1) self.first.offset self.second.offset self.third.offset bytes }
    {
        let n = self.first.length as u32 + 1;
        let (a, b, c) = (
            self.first.offset as u32,
            self.second.offset as u32,
            self.third.offset as u32,
        );
        (a + n <= b) & (b + n <= c) & (c + n <= 8 * bytes as u32)
    }

    // Whether offsets, lengths, channels, positions and order are right in a point of so many bytes.
    #[tactic(auto, unfolding(crate::specs::Samples::samples_right))]
    pub fn right(self, bytes: u8) -> bool
        ensures { result ≡ samples_right bytes self }
    {
        self.one_depth()
            & (self.first.position == 0)
            & (self.second.position == 0)
            & (self.third.position == 0)
            & self.each_once()
            & self.in_order(bytes)
    }

    // Whether all three state a range.
    #[tactic(auto, unfolding(crate::specs::Samples::all_state))]
    fn all_state(self, model: u8, range: Range, depth: Depth) -> bool
        ensures { result ≡ all_state model range (bits_of depth) self }
    {
        self.first.states(model, range, depth)
            & self.second.states(model, range, depth)
            & self.third.states(model, range, depth)
    }

    // The range that all three state at a depth, or that they state no one range.
    #[tactic(auto, unfolding(crate::specs::Samples::range_in))]
    pub fn range(self, model: u8, depth: Depth) -> Option<Range>
        ensures { result ≡ range_in model (bits_of depth) self }
    {
        if self.all_state(model, Range::Narrow, depth) {
            Some(Range::Narrow)
        } else if self.all_state(model, Range::Full, depth) {
            Some(Range::Full)
        } else if self.all_state(model, Range::LegacyFull, depth) {
            Some(Range::LegacyFull)
        } else {
            None
        }
    }
}
