// A line of values encoded unit by unit: points of their own, or groups of two points.
#![tactic(auto)]

ghost use Rattle.std.specs.Prelude.{◌≡◌, ℕ, ◌+◌, ◌*◌, ◌≤◌, eqb, length};
ghost use Rattle.lists.specs.Lists.{tabulate, new_or_kept};
ghost use Rattle.unit_encoding.specs.Units.{UnitFacts};

use line::{EightJoined, Joined};

mod number;
mod there;

pub use number::Number;
pub use there::is_there;

// The units of a line of values.
pub trait Units: Copy {
    // The bytes of a unit.
    ghost size: { Self → ℕ };

    // How many units there are.
    ghost count: { Self → ℕ };

    // The number of unit i: its codes, side by side.
    ghost number: { Self → ℕ → ℕ };

    // Byte k of the line of all units.
    ghost byte: { Self → ℕ → ℕ };

    // How many values of the first i units are cut.
    ghost cuts: { Self → ℕ → ℕ };

    // What each kind of units proves of itself.
    ghost known: { (u : Self) → UnitFacts (size u) (count u) (number u) (byte u) (cuts u) };

    fn size(self) -> usize
        ensures { result ≡ size self };

    fn count(self) -> usize
        ensures { result ≡ count self };

    // Unit j of those from `start` on. One that is not there has a number and cuts too, as `number` and `cuts` say. (Two
    // numbers: of their sum the compiler would not see that it is below the count, and `eight` would test each of its units.)
    fn joined(self, start: usize, j: usize) -> Joined
        ensures number { result.number ≡ number self (start + j) }
        ensures cuts { cuts self (start + j) + result.cuts ≡ cuts self (start + j + 1) };
}

// Eight units from unit i on, all worked out before any is stored, so that the compiler can do it side by side.
// (Within `fill` the compiler sees that all eight are there, and drops the test of each.)
#[inline(always)]
fn eight<U: Units>(units: U, i: usize) -> EightJoined
    requires { i + 8 ≤ U.count units }
    ensures numbers { result.numbers ≡ tabulate 8 (λ k. U.number units (i + k)) }
    ensures cuts { U.cuts units i + result.cuts ≡ U.cuts units (i + 8) }
{
    let mut numbers = [0u64; 8];
    let mut cuts = 0;
    for j in 0..8 {
        let unit = units.joined(i, j);
        numbers[j] = unit.number;
        cuts += unit.cuts;
    }
    EightJoined { numbers, cuts }
}

// Fills an output of the units' length, eight units a turn and the rest one by one; the answer is how many values were cut.
fn fill<U: Units>(units: U, out: &mut [u8]) -> u64
    ensures cuts { result ≡ U.cuts units (U.count units) }
    ensures memory { length out.old ≡ U.size units * U.count units → out.new ≡ tabulate (U.size units * U.count units) (U.byte units) }
{
    let size = units.size();
    let n = units.count();
    let mut all = 0;
    let mut i = 0;
    while i <= n && 8 <= n - i {
        let turn = eight(units, i);
        all += turn.cuts;
        point_packing::store_counted(out, size, i, turn.numbers, all);
        i += 8;
    }
    while i < n {
        let last = units.joined(i, 0);
        point_packing::store_one(out, size, i, last.number);
        all += last.cuts;
        i += 1;
    }
    all
}

// The bytes of a line of units; the answer is how many values were cut. In an output of another length nothing is stored, and
// the cuts are counted all the same.
pub fn encode<U: Units>(units: U, out: &mut [u8]) -> u64
    ensures cuts { result ≡ U.cuts units (U.count units) }
    ensures memory { out.new ≡ new_or_kept (eqb (length out.old) (U.size units * U.count units)) (tabulate (U.size units * U.count units) (U.byte units)) out.old }
{
    let fits = out.len() == units.size() * units.count();
    let filled = if fits { out.len() } else { 0 };
    fill(units, &mut out[..filled])
}
