// The range and the depth of a layout by its numbers. `write` has seen that the layout is valid, so that neither takes the one
// that stands for an unknown number.
ghost use Rattle.std.specs.Prelude.{◌≡◌};
ghost use Rattle.parameters.specs.Parameters.{range_of, depth_of};

use parameters::{Depth, Range};

pub(crate) fn range_of(number: u8) -> Range
    ensures { result ≡ range_of number }
{
    Range::of(number).unwrap_or(Range::LegacyFull)
}

pub(crate) fn depth_of(number: u8) -> Depth
    ensures { result ≡ depth_of number }
{
    Depth::of(number).unwrap_or(Depth::Twelve)
}
