// A line's groups decoded, a group a turn.
ghost use Rattle.std.specs.Prelude.{◌≡◌, true, ◌+◌, ◌*◌, ◌<◌, ◌≤◌, length, get_or};
ghost use Rattle.lists.specs.inner.Stores.{written};
ghost use Rattle.layout.specs.Layout.{valid_groups};
ghost use Rattle.scale.specs.Value.{value_of};
ghost use Rattle.scales.specs.inner.Fitted.{Fitted};
ghost use Rattle.line_values.specs.Decode.{value_at, values_of};

use layout::Layout;
use parameters::Channels;
use scale::Scale;

// The value of a byte of the line.
fn value_at(scale: Scale, packed: &[u8], at: usize) -> f32
    requires { at < length packed.now }
    ensures { result ≡ value_of scale (get_or packed.now at 0) }
{
    scale.value(packed[at] as u16)
}

// Stores the six values of group i: both points take its colour. (The layout is there for the contract alone.)
fn put(layout: Layout, scales: Channels<Scale>, packed: &[u8], out: &mut [f32], i: usize)
    requires layout_value { (valid_groups layout ≡ true) × Fitted layout scales }
    requires i_in_bounds { (4 * i + 4 ≤ length packed.now) × (6 * i + 6 ≤ length out.old) }
    ensures { out.new ≡ written out.old (6 * i) (λ j. value_at layout packed.now (6 * i + j)) 6 }
{
    let from = 4 * i;
    let to = 6 * i;
    let cb = value_at(scales.channel1, packed, from);
    let first = value_at(scales.channel0, packed, from + 1);
    let cr = value_at(scales.channel2, packed, from + 2);
    let second = value_at(scales.channel0, packed, from + 3);
    out[to] = first;
    out[to + 1] = cb;
    out[to + 2] = cr;
    out[to + 3] = second;
    out[to + 4] = cb;
    out[to + 5] = cr;
}

// The values of a line of n groups.
pub(crate) fn all(layout: Layout, scales: Channels<Scale>, packed: &[u8], out: &mut [f32], n: usize)
    requires layout_value { (valid_groups layout ≡ true) × Fitted layout scales }
    requires packed_len { (length packed.now ≡ 4 * n) × (length out.old ≡ 6 * n) }
    ensures { out.new ≡ values_of layout packed.now }
{
    for i in 0..n {
        put(layout, scales, packed, out, i);
    }
}
