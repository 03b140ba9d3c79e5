// Points of three codes, each in one number, stored into a line.
ghost use Rattle.std.specs.Prelude.{◌≡◌, ◌+◌, ◌*◌, ◌≤◌, length, get_or};
ghost use Rattle.lists.specs.inner.Stores.{written};
ghost use Rattle.color_line.specs.inner.Rows.{short_of, stored_of};

// Three codes. (One by one, since the compiler makes one store of the four below.)
pub(crate) fn store3(out: &mut [u16], at: usize, v: u64)
    requires { at + 3 ≤ length out.old }
    ensures { out.new ≡ written out.old at (short_of v) 3 }
{
    out[at] = (v % 65536) as u16;
    out[at + 1] = (v / 65536 % 65536) as u16;
    out[at + 2] = (v / 4294967296 % 65536) as u16;
}

// Four codes, in one store of the machine. A point has three: the fourth falls on the point after it, which is stored later.
fn store4(out: &mut [u16], at: usize, v: u64)
    requires { at + 4 ≤ length out.old }
    ensures { out.new ≡ written out.old at (short_of v) 4 }
{
    store3(out, at, v);
    out[at + 3] = (v / 281474976710656 % 65536) as u16;
}

// Seven points from point i on. There is a point after them.
fn store_seven(v: [u64; 8], out: &mut [u16], i: usize)
    requires { 3 * i + 22 ≤ length out.old }
    ensures { out.new ≡ stored_of v i 7 out.old }
{
    for j in 0..7 {
        store4(out, 3 * (i + j), v[j]);
    }
}

// Eight points from point i on.
pub(crate) fn store_eight(v: [u64; 8], out: &mut [u16], i: usize)
    requires { 3 * i + 24 ≤ length out.old }
    ensures { out.new ≡ written (stored_of v i 7 out.old) (3 * i + 21) (short_of (get_or v 7 0)) 3 }
{
    store_seven(v, out, i);
    store3(out, 3 * i + 21, v[7]);
}
