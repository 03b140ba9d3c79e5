// Three codes in their places in a point.
#![tactic(auto)]

ghost use Rattle.std.specs.Prelude.{◌≡◌};
ghost use Rattle.point_joining.specs.inner.Places.{joined_bits};

use layout::Layout;

// Three codes, each at its channel's bit offset. (No valid layout has an offset of 64 or more; the remainder is there for any
// other.)
pub fn join(layout: Layout, a: u16, b: u16, c: u16) -> u64
    ensures { result ≡ joined_bits layout a b c }
{
    ((a as u64) << (layout.offset0 % 64) as u64)
        | (((b as u64) << (layout.offset1 % 64) as u64)
            | ((c as u64) << (layout.offset2 % 64) as u64))
}
