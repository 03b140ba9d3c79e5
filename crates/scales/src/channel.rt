// The scale of a channel, by the paper's numbers.
ghost use Rattle.std.specs.Prelude.{◌≡◌};
ghost use Rattle.scales.specs.Channel.{known_scale};

use parameters::{Depth, Kind, Range};
use scale::Scale;

// The scale of a channel, or that the paper has no such channel.
pub fn known_scale(model: u8, range: u8, depth: u8, channel: u8) -> Option<Scale>
    ensures { result ≡ known_scale model range depth channel }
{
    if !(parameters::model_known(model) & parameters::channel_known(channel)) {
        return None;
    }
    let of_range = Range::of(range)?;
    let of_depth = Depth::of(depth)?;
    Some(Scale::of(of_range, of_depth, Kind::of(model, channel)))
}
