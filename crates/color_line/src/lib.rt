// Lines of points converted by rows of floats: each code that comes out is the whole part of one quotient.
#![tactic(auto)]

ghost use Rattle.std.specs.Prelude.{◌≡◌, length};
ghost use Rattle.color_line.specs.inner.Rows.{converted_by, cuts_by};

use crate::points::points;

mod points;
mod row;
mod store;

pub use row::{FloatRow, FloatRows};

// Converts the codes, three a point, into a second line, by the three rows, and answers how many of its codes were cut. A
// second line that is not of the same length, or a length that is no multiple of three, leaves it as it was, and none is cut.
pub fn convert(rows: FloatRows, codes: &[u16], out: &mut [u16]) -> u64
    ensures out_after { out.new ≡ converted_by rows codes.now out.old }
    ensures value { result ≡ cuts_by rows codes.now (length out.old) }
{
    let n = codes.len() / 3;
    if (codes.len() % 3 == 0) & (out.len() == codes.len()) {
        points(rows, codes, out, n)
    } else {
        0
    }
}
