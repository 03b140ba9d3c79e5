// A line's points decoded, where they are of their own. Every value comes from only the bytes that hold its field.
ghost use Rattle.std.specs.Prelude.{◌≡◌, true, ◌+◌, ◌*◌, ◌<◌, ◌≤◌, length, take, drop};
ghost use Rattle.lists.specs.inner.Stores.{written};
ghost use Rattle.layout.specs.Layout.{valid_points};
ghost use Rattle.scale.specs.Value.{value_of};
ghost use Rattle.scales.specs.Channel.{scale_at};
ghost use Rattle.scales.specs.inner.Fitted.{Fitted};
ghost use Rattle.line.specs.inner.Channels.{channel_written};
ghost use Rattle.field.specs.inner.Read.{read_code, one_count};
ghost use Rattle.point_decoding.specs.inner.Points.{point_value, point_values_of};
ghost use Rattle.point_decoding.specs.inner.Read.{read_value, scale_in};

use field::Field;
use layout::Layout;
use parameters::Channels;
use scale::Scale;

// The value of a field whose bytes begin at byte `at` of the line. (`count` is the field's own, and stands beside it so that
// one choice by it can do for three fields.)
fn value_at(scale: Scale, field: Field, packed: &[u8], at: usize, count: usize) -> f32
    requires { at + count ≤ length packed.now }
    ensures { result ≡ value_of scale (read_code field (take count (drop at packed.now))) }
{
    scale.value(field.code(&packed[at..at + count]))
}

// Stores the three values of point i, which begins at byte `at`. All three fields have one count of bytes.
fn put(layout: Layout, scales: Channels<Scale>, packed: &[u8], at: usize, out: &mut [f32], i: usize)
    requires layout_value { (valid_points layout ≡ true) × (one_count layout ≡ true) × Fitted layout scales }
    requires bytes_in_bounds { (at + layout.bytes ≤ length packed.now) × (3 * i + 3 ≤ length out.old) }
    ensures { out.new ≡ written out.old (3 * i) (λ j. read_value layout packed.now at j) 3 }
{
    let field0 = Field::of(layout, 0);
    let field1 = Field::of(layout, 1);
    let field2 = Field::of(layout, 2);
    let count = field0.count;
    out[3 * i] = value_at(scales.channel0, field0, packed, at + field0.first, count);
    out[3 * i + 1] = value_at(scales.channel1, field1, packed, at + field1.first, count);
    out[3 * i + 2] = value_at(scales.channel2, field2, packed, at + field2.first, count);
}

// The values of all points of a line of n, point by point.
fn points(layout: Layout, scales: Channels<Scale>, packed: &[u8], out: &mut [f32], n: usize)
    requires layout_value { (valid_points layout ≡ true) × (one_count layout ≡ true) × Fitted layout scales }
    requires packed_len { (length packed.now ≡ layout.bytes * n) × (length out.old ≡ 3 * n) }
    ensures { out.new ≡ point_values_of layout packed.now }
{
    let mut at = 0;
    for i in 0..n {
        put(layout, scales, packed, at, out, i);
        at += line::step(layout);
    }
}

// The values of one channel of n points.
fn one_channel(layout: Layout, channel: u8, scale: Scale, packed: &[u8], out: &mut [f32], n: usize)
    requires layout_value { (valid_points layout ≡ true) × (channel < 3) × (scale ≡ scale_at layout channel) }
    requires packed_len { (length packed.now ≡ layout.bytes * n) × (length out.old ≡ 3 * n) }
    ensures { out.new ≡ channel_written out.old (point_value layout packed.now) channel n }
{
    let field = Field::of(layout, channel);
    let count = field.count;
    let place = channel as usize;
    let mut at = field.first;
    for i in 0..n {
        out[3 * i + place] = value_at(scale, field, packed, at, count);
        at += line::step(layout);
    }
}

// The scale of a channel.
fn scale_of(scales: Channels<Scale>, channel: u8) -> Scale
    ensures { result ≡ scale_in scales channel }
{
    if channel == 0 {
        scales.channel0
    } else if channel == 1 {
        scales.channel1
    } else {
        scales.channel2
    }
}

// The values of all points of a line of n, channel by channel: where the fields have not one count of bytes, so that a choice
// by the count can be taken out of the loop. (The calls stand in a loop, and not one after the other, so that the compiler has
// one place to put the function in. Else it would lay the scales out in memory for every line.)
fn channels(layout: Layout, scales: Channels<Scale>, packed: &[u8], out: &mut [f32], n: usize)
    requires layout_value { (valid_points layout ≡ true) × Fitted layout scales }
    requires packed_len { (length packed.now ≡ layout.bytes * n) × (length out.old ≡ 3 * n) }
    ensures { out.new ≡ point_values_of layout packed.now }
{
    for k in 0..3 {
        one_channel(layout, k, scale_of(scales, k), packed, out, n);
    }
}

// The values of all points of a line of n.
pub(crate) fn all(layout: Layout, scales: Channels<Scale>, packed: &[u8], out: &mut [f32], n: usize)
    requires layout_value { (valid_points layout ≡ true) × Fitted layout scales }
    requires packed_len { (length packed.now ≡ layout.bytes * n) × (length out.old ≡ 3 * n) }
    ensures { out.new ≡ point_values_of layout packed.now }
{
    if field::one_count(layout) {
        points(layout, scales, packed, out, n);
    } else {
        channels(layout, scales, packed, out, n);
    }
}
