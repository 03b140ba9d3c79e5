// All points of a line, eight at a turn, which the compiler works out side by side.
ghost use Rattle.std.specs.Prelude.{◌≡◌, ◌+◌, ◌*◌, ◌≤◌, length};
ghost use Rattle.lists.specs.Lists.{tabulate, count};
ghost use Rattle.color_equations.specs.Line.{converted_of, converted_cuts};
ghost use Rattle.color_line.specs.inner.Rows.{rows_code, cut_at, point_of};

use crate::row::{FloatRows, point};
use crate::store::{store_eight, store3};
use line::{EightJoined, Joined};

// Point i of what comes out.
fn point_at(rows: FloatRows, codes: &[u16], i: usize) -> Joined
    requires { 3 * i + 3 ≤ length codes.now }
    ensures { result ≡ point_of (rows_code rows) codes.now i }
{
    point(rows, codes[3 * i], codes[3 * i + 1], codes[3 * i + 2])
}

// Eight points from point i on. (No code is stored before all are worked out: the compiler does not know that the two lines lie
// apart.)
fn eight_at(rows: FloatRows, codes: &[u16], i: usize) -> EightJoined
    requires { 3 * i + 24 ≤ length codes.now }
    ensures numbers_value { result.numbers ≡ tabulate 8 (λ k. (point_of (rows_code rows) codes.now (i + k)).number) }
    ensures cuts_value { count (3 * i) (cut_at (rows_code rows) codes.now) + result.cuts ≡ count (3 * (i + 8)) (cut_at (rows_code rows) codes.now) }
{
    let mut numbers = [0u64; 8];
    let mut cuts = 0u64;
    for j in 0..8 {
        let p = point_at(rows, codes, i + j);
        numbers[j] = p.number;
        cuts += p.cuts;
    }
    EightJoined { numbers, cuts }
}

// How many codes of the line that comes out were cut.
pub(crate) fn points(rows: FloatRows, codes: &[u16], out: &mut [u16], n: usize) -> u64
    requires { (length codes.now ≡ 3 * n) × (length out.old ≡ 3 * n) }
    ensures out_after { out.new ≡ converted_of (rows_code rows) codes.now }
    ensures value { result ≡ converted_cuts (rows_code rows) codes.now }
{
    let mut cuts = 0u64;
    for turn in 0..n / 8 {
        let i = 8 * turn;
        let eight = eight_at(rows, codes, i);
        store_eight(eight.numbers, out, i);
        cuts += eight.cuts;
    }
    for i in n / 8 * 8..n {
        let one = point_at(rows, codes, i);
        store3(out, 3 * i, one.number);
        cuts += one.cuts;
    }
    cuts
}
