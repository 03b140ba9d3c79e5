// A line of codes, three a point, packed to groups, four bytes Cb, Y', Cr, Y' for two points that share their colour (request
// A6). A layout that is not of groups is refused: the crate `point_packing` has the points' own way.
#![tactic(auto)]

ghost use Rattle.std.specs.Prelude.{◌≡◌, true, ◌+◌, ◌*◌, ◌≤◌, length, get_or};
ghost use Rattle.lists.specs.inner.Stores.{written};
ghost use Rattle.line.specs.Group.{code_of_byte};
ghost use Rattle.line.specs.Answer.{pack_answer, pack_output, of_groups};
ghost use Rattle.line.specs.inner.Groups.{groups_packed};
ghost use Rattle.group_packing.specs.inner.Within.{group_within, groups_within};

use layout::Layout;
use refusal::Refusal;

// Whether the four codes of group i that are packed fit a byte.
fn within(codes: &[u16], i: usize) -> bool
    requires { 6 * i + 6 ≤ length codes.now }
    ensures { result ≡ group_within codes.now i }
{
    (codes[6 * i] <= 255)
        & (codes[6 * i + 1] <= 255)
        & (codes[6 * i + 2] <= 255)
        & (codes[6 * i + 3] <= 255)
}

// Whether those of all n groups do. It stops at the first group that does not: without the exit the compiler gathers codes of
// several groups from their places, and takes three times as long.
fn all_within(codes: &[u16], n: usize) -> bool
    requires { length codes.now ≡ 6 * n }
    ensures { result ≡ groups_within codes.now }
{
    for i in 0..n {
        if !within(codes, i) {
            return false;
        }
    }
    true
}

// Stores the four bytes of group i. All four codes are read before the first byte is stored: the compiler then reads and stores
// them at once. The bytes are stored one by one, since `copy_from_slice` of all four took four times as long.
fn put_group(codes: &[u16], out: &mut [u8], i: usize)
    requires i_in_bounds { (6 * i + 6 ≤ length codes.now) × (4 * i + 4 ≤ length out.old) }
    requires codes_value { groups_within codes.now ≡ true }
    ensures { out.new ≡ written out.old (4 * i) (λ j. get_or codes.now (6 * i + code_of_byte j) 0) 4 }
{
    let y0 = codes[6 * i] as u8;
    let cb = codes[6 * i + 1] as u8;
    let cr = codes[6 * i + 2] as u8;
    let y1 = codes[6 * i + 3] as u8;
    out[4 * i] = cb;
    out[4 * i + 1] = y0;
    out[4 * i + 2] = cr;
    out[4 * i + 3] = y1;
}

// The bytes of a line of n groups.
fn groups(codes: &[u16], out: &mut [u8], n: usize)
    requires codes_len { (length codes.now ≡ 6 * n) × (length out.old ≡ 4 * n) }
    requires codes_value { groups_within codes.now ≡ true }
    ensures { out.new ≡ groups_packed codes.now }
{
    for i in 0..n {
        put_group(codes, out, i);
    }
}

// Packs a line of codes to groups: a group takes the colour of its first point, and the second's is not looked at. No byte is
// written before every other code is seen to fit. Refused: 9, then 16, then 13, then 14.
pub fn pack_groups(layout: Layout, codes: &[u16], out: &mut [u8]) -> Result<usize, Refusal>
    ensures answer { result ≡ of_groups layout (pack_answer layout codes.now (length out.old)) (Err Refusal.Outside) }
    ensures memory { out.new ≡ of_groups layout (pack_output layout codes.now out.old) out.old }
{
    if !(layout.grouped() & layout.valid()) {
        return Err(Refusal::Outside);
    }
    let points = codes.len() / 3;
    if (codes.len() % 3 == 0) & (points % 2 != 0) {
        return Err(Refusal::OddCount);
    }
    let n = points / 2;
    if !((codes.len() % 3 == 0) & (points <= line::MOST_POINTS) & (out.len() == 4 * n)) {
        return Err(Refusal::WrongLineOrOutput);
    }
    if !all_within(codes, n) {
        return Err(Refusal::CodeTooHigh);
    }
    groups(codes, out, n);
    Ok(points)
}
