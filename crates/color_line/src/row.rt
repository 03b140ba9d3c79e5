// A point that comes out, from the three codes of the point that goes in.
ghost use Rattle.std.specs.Prelude.{◌≡◌};
ghost use Rattle.color_line.specs.inner.Rows.{row_code, rows_code, point_by};

use floats::FloatEnds;
use fractions::Clamped;
use line::Joined;
use parameters::Channels;

// The code is the whole part of (first x + second y + third z + more) / over - 4096, within the ends, and is cut where that lies
// outside them. The fraction is kept 4096 above the code's, where all codes have one exponent.
#[derive(Clone, Copy)]
pub struct FloatRow {
    pub first: f64,
    pub second: f64,
    pub third: f64,
    pub more: f64,
    pub over: f64,
    pub ends: FloatEnds,
}

// One for each channel of the point that comes out.
pub type FloatRows = Channels<FloatRow>;

fn row_code(row: FloatRow, x: u16, y: u16, z: u16) -> Clamped
    ensures { result ≡ row_code row x y z }
{
    let ends = row.ends;
    let sum = row.first * x as f64 + row.second * y as f64 + row.third * z as f64 + row.more;
    ends.clamp(sum / row.over)
}

// The three codes of a point in one number, 16 bits each.
pub(crate) fn point(rows: FloatRows, x: u16, y: u16, z: u16) -> Joined
    ensures { result ≡ point_by (rows_code rows x y z) }
{
    let a = row_code(rows.channel0, x, y, z);
    let b = row_code(rows.channel1, x, y, z);
    let c = row_code(rows.channel2, x, y, z);
    Joined {
        number: a.code as u64 + 65536 * b.code as u64 + 4294967296 * c.code as u64,
        cuts: a.cut as u64 + b.cut as u64 + c.cut as u64,
    }
}
