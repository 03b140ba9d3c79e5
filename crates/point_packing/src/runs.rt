// The numbers of points stored: eight of them, or one. What does not fit is not stored, so that these serve any caller.
ghost use Rattle.std.specs.Prelude.{◌≡◌, ◌≤◌};
ghost use Rattle.point_packing.specs.inner.Store.{points_fit, stored_last, stored_eight, stored_counted, stored_one};

use crate::store::{store_all, store_low};

// Whether so many points, from point i on, fit in so many bytes.
fn points_fit(size: usize, i: usize, count: usize, bytes: usize) -> bool
    requires { count ≤ 10 }
    ensures { result ≡ points_fit size i count bytes }
{
    3 <= size && size <= 8 && i <= line::MOST_POINTS && size * (i + count) <= bytes
}

// Stores the numbers of eight points that fewer than two follow: the last two byte by byte, so that nothing falls beyond the
// line.
fn store_last(out: &mut [u8], size: usize, i: usize, v: [u64; 8])
    ensures { out.new ≡ stored_last size v i out.old }
{
    if points_fit(size, i, 8, out.len()) {
        store_all(out, size, i, v, 6);
        store_low(out, size * (i + 6), size, v[6]);
        store_low(out, size * (i + 7), size, v[7]);
    }
}

// Stores the numbers of eight points, from point i on, at `size` bytes a point. Where two more points follow, each store has
// eight bytes: what is more than a point falls on the points after it, which are stored later.
fn store_eight(out: &mut [u8], size: usize, i: usize, v: [u64; 8])
    ensures { out.new ≡ stored_eight size v i out.old }
{
    if points_fit(size, i, 10, out.len()) {
        store_all(out, size, i, v, 8);
    } else {
        store_last(out, size, i, v);
    }
}

// The same beside a count of cuts, where that is no more than the values of a line, as it always is. With this comparison the
// compiler counts the cuts of eight points before it stores them. Else it would put their comparisons off until after the
// store, and keep all that is to be compared in memory until then: encoding would take a tenth longer.
pub fn store_counted(out: &mut [u8], size: usize, i: usize, v: [u64; 8], cuts: u64)
    ensures memory { out.new ≡ stored_counted size v i cuts out.old }
{
    if cuts <= line::MOST_VALUES {
        store_eight(out, size, i, v);
    }
}

// Stores that of one point, byte by byte.
pub fn store_one(out: &mut [u8], size: usize, i: usize, v: u64)
    ensures memory { out.new ≡ stored_one size v i out.old }
{
    if points_fit(size, i, 1, out.len()) {
        store_low(out, size * i, size, v);
    }
}
