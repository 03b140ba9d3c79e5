// A line's points unpacked, where they are of their own. Every code comes from only the bytes that hold its field.
ghost use Rattle.std.specs.Prelude.{◌≡◌, true, ◌+◌, ◌*◌, ◌<◌, ◌≤◌, length, take, drop};
ghost use Rattle.lists.specs.inner.Stores.{written};
ghost use Rattle.layout.specs.Layout.{valid_points};
ghost use Rattle.line.specs.Line.{point_code};
ghost use Rattle.line.specs.inner.Points.{point_codes};
ghost use Rattle.line.specs.inner.Channels.{channel_written};
ghost use Rattle.field.specs.inner.Read.{read_code, read_at, one_count};

use field::Field;
use layout::Layout;

// The code of a field whose bytes begin at byte `at` of the line. (`count` is the field's own, and stands beside it so that one
// choice by it can do for three fields.)
fn code_at(field: Field, packed: &[u8], at: usize, count: usize) -> u16
    requires { at + count ≤ length packed.now }
    ensures { result ≡ read_code field (take count (drop at packed.now)) }
{
    field.code(&packed[at..at + count])
}

// Stores the three codes of point i, which begins at byte `at`. All three fields have one count of bytes.
fn put(layout: Layout, packed: &[u8], at: usize, codes: &mut [u16], i: usize)
    requires layout_value { (valid_points layout ≡ true) × (one_count layout ≡ true) }
    requires bytes_in_bounds { (at + layout.bytes ≤ length packed.now) × (3 * i + 3 ≤ length codes.old) }
    ensures { codes.new ≡ written codes.old (3 * i) (λ j. read_at layout packed.now at j) 3 }
{
    let field0 = Field::of(layout, 0);
    let field1 = Field::of(layout, 1);
    let field2 = Field::of(layout, 2);
    let count = field0.count;
    codes[3 * i] = code_at(field0, packed, at + field0.first, count);
    codes[3 * i + 1] = code_at(field1, packed, at + field1.first, count);
    codes[3 * i + 2] = code_at(field2, packed, at + field2.first, count);
}

// The codes of all points of a line of n, point by point. (Where a point begins is added up beside its index: `line::step` says
// why.)
fn points(layout: Layout, packed: &[u8], codes: &mut [u16], n: usize)
    requires layout_value { (valid_points layout ≡ true) × (one_count layout ≡ true) }
    requires packed_len { (length packed.now ≡ layout.bytes * n) × (length codes.old ≡ 3 * n) }
    ensures { codes.new ≡ point_codes layout packed.now }
{
    let mut at = 0;
    for i in 0..n {
        put(layout, packed, at, codes, i);
        at += line::step(layout);
    }
}

// The codes of one channel of n points.
fn one_channel(layout: Layout, channel: u8, packed: &[u8], codes: &mut [u16], n: usize)
    requires layout_value { (valid_points layout ≡ true) × (channel < 3) }
    requires packed_len { (length packed.now ≡ layout.bytes * n) × (length codes.old ≡ 3 * n) }
    ensures { codes.new ≡ channel_written codes.old (point_code layout packed.now) channel n }
{
    let field = Field::of(layout, channel);
    let count = field.count;
    let place = channel as usize;
    let mut at = field.first;
    for i in 0..n {
        codes[3 * i + place] = code_at(field, packed, at, count);
        at += line::step(layout);
    }
}

// The codes of all points of a line of n, channel by channel: where the fields have not one count of bytes, so that a choice by
// the count can be taken out of the loop.
fn channels(layout: Layout, packed: &[u8], codes: &mut [u16], n: usize)
    requires layout_value { valid_points layout ≡ true }
    requires packed_len { (length packed.now ≡ layout.bytes * n) × (length codes.old ≡ 3 * n) }
    ensures { codes.new ≡ point_codes layout packed.now }
{
    for channel in 0..3 {
        one_channel(layout, channel, packed, codes, n);
    }
}

// The codes of all points of a line of n.
pub(crate) fn all(layout: Layout, packed: &[u8], codes: &mut [u16], n: usize)
    requires layout_value { valid_points layout ≡ true }
    requires packed_len { (length packed.now ≡ layout.bytes * n) × (length codes.old ≡ 3 * n) }
    ensures { codes.new ≡ point_codes layout packed.now }
{
    if field::one_count(layout) {
        points(layout, packed, codes, n);
    } else {
        channels(layout, packed, codes, n);
    }
}
