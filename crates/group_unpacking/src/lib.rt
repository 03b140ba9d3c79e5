// A line of groups, four bytes Cb, Y', Cr, Y' for two points that share their colour, unpacked to codes, three a point (request
// A6). A layout that is not of groups is refused: the crate `point_unpacking` has the points' own way.
#![tactic(auto)]

ghost use Rattle.std.specs.Prelude.{◌≡◌, ◌+◌, ◌*◌, ◌≤◌, length, get_or};
ghost use Rattle.lists.specs.inner.Stores.{written};
ghost use Rattle.line.specs.Group.{byte_of_code};
ghost use Rattle.line.specs.Answer.{unpack_answer, unpack_output, of_groups};
ghost use Rattle.line.specs.inner.Groups.{group_codes};

use layout::Layout;
use refusal::Refusal;

// Stores the six codes of group i. All four bytes are read before the first code is stored: the compiler then reads them at once.
// The codes are stored one by one, since `copy_from_slice` of all six took seven times as long.
fn put_group(packed: &[u8], codes: &mut [u16], i: usize)
    requires { (4 * i + 4 ≤ length packed.now) × (6 * i + 6 ≤ length codes.old) }
    ensures { codes.new ≡ written codes.old (6 * i) (λ j. get_or packed.now (4 * i + byte_of_code j) 0) 6 }
{
    let cb = u16::from(packed[4 * i]);
    let y0 = u16::from(packed[4 * i + 1]);
    let cr = u16::from(packed[4 * i + 2]);
    let y1 = u16::from(packed[4 * i + 3]);
    codes[6 * i] = y0;
    codes[6 * i + 1] = cb;
    codes[6 * i + 2] = cr;
    codes[6 * i + 3] = y1;
    codes[6 * i + 4] = cb;
    codes[6 * i + 5] = cr;
}

// The codes of a line of n groups.
fn groups(packed: &[u8], codes: &mut [u16], n: usize)
    requires { (length packed.now ≡ 4 * n) × (length codes.old ≡ 6 * n) }
    ensures { codes.new ≡ group_codes packed.now }
{
    for i in 0..n {
        put_group(packed, codes, i);
    }
}

// Unpacks a line of groups to codes: both points of a group take its colour. Refused: 9, then 13.
pub fn unpack_groups(layout: Layout, packed: &[u8], codes: &mut [u16]) -> Result<usize, Refusal>
    ensures answer { result ≡ of_groups layout (unpack_answer layout (length packed.now) (length codes.old)) (Err Refusal.Outside) }
    ensures memory { codes.new ≡ of_groups layout (unpack_output layout packed.now codes.old) codes.old }
{
    if !(layout.grouped() & layout.valid()) {
        return Err(Refusal::Outside);
    }
    let n = packed.len() / 4;
    let points = 2 * n;
    if !((packed.len() % 4 == 0) & (points <= line::MOST_POINTS) & (codes.len() == 3 * points)) {
        return Err(Refusal::WrongLineOrOutput);
    }
    groups(packed, codes, n);
    Ok(points)
}
