// A line of codes packed to points of their own.
ghost use Rattle.std.specs.Prelude.{◌≡◌, true, ◌+◌, ◌*◌, ◌≤◌, length};
ghost use Rattle.layout.specs.Layout.{valid_points};
ghost use Rattle.line.specs.Line.{joined as joinedOf, codes_within};
ghost use Rattle.line.specs.inner.Points.{points_packed};

use crate::store::{store_low, store8};
use layout::Layout;

// The number of point i of a line of codes.
fn joined(layout: Layout, codes: &[u16], i: usize) -> u64
    requires { (valid_points layout ≡ true) × (codes_within layout.depth codes.now ≡ true) × (3 * i + 3 ≤ length codes.now) }
    ensures { result ≡ joinedOf layout codes.now i }
{
    point_joining::join(layout, codes[3 * i], codes[3 * i + 1], codes[3 * i + 2])
}

// The bytes of a line of n points. All but the last few are stored eight bytes at a time, two points a turn.
pub(crate) fn points(layout: Layout, codes: &[u16], out: &mut [u8], n: usize)
    requires layout_value { (valid_points layout ≡ true) × (codes_within layout.depth codes.now ≡ true) }
    requires codes_len { (length codes.now ≡ 3 * n) × (length out.old ≡ layout.bytes * n) }
    ensures { out.new ≡ points_packed layout codes.now }
{
    let size = layout.bytes as usize;
    let pairs = n.saturating_sub(2) / 2;
    for pair in 0..pairs {
        let i = 2 * pair;
        store8(out, size * i, joined(layout, codes, i));
        store8(out, size * (i + 1), joined(layout, codes, i + 1));
    }
    for i in 2 * pairs..n {
        store_low(out, size * i, size, joined(layout, codes, i));
    }
}
