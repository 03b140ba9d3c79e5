// The scales of a layout's three channels, worked out once for a line.
ghost use Rattle.std.specs.Prelude.{◌≡◌};
ghost use Rattle.layout.specs.Layout.{valid_points, valid_groups};
ghost use Rattle.scales.specs.Scales.{known_scales};

use layout::Layout;
use parameters::{Channels, Depth, Kind, Range};
use scale::Scale;

// The scales of a layout of points of their own. It is tested here, so that an entry tests it once. (A valid layout's range
// and depth are known: the other two arms are never taken.)
pub fn of_points(layout: Layout) -> Option<Channels<Scale>>
    ensures { result ≡ known_scales (valid_points layout) layout }
{
    if !layout.valid_points() {
        return None;
    }
    let range = Range::of(layout.range)?;
    let depth = Depth::of(layout.depth)?;
    let model = layout.model;
    let channel0 = Scale::of(range, depth, Kind::of(model, 0));
    let channel1 = Scale::of(range, depth, Kind::of(model, 1));
    let channel2 = Scale::of(range, depth, Kind::of(model, 2));
    Some(Channels {
        channel0,
        channel1,
        channel2,
    })
}

// And of a layout of groups, which is tested here too: Y', Cb and Cr of 8 bits.
pub fn of_groups(layout: Layout) -> Option<Channels<Scale>>
    ensures { result ≡ known_scales (valid_groups layout) layout }
{
    if !layout.valid_groups() {
        return None;
    }
    let range = Range::of(layout.range)?;
    let brightness = Scale::of(range, Depth::Eight, Kind::Brightness);
    let difference = Scale::of(range, Depth::Eight, Kind::Difference);
    Some(Channels {
        channel0: brightness,
        channel1: difference,
        channel2: difference,
    })
}
