// The bytes of a point's number, the lowest first.
ghost use Rattle.std.specs.Prelude.{◌≡◌, ℕ, ◌+◌, ◌*◌, ◌<◌, ◌≤◌, length};
ghost use Rattle.lists.specs.inner.Stores.{written};
ghost use Rattle.lists.specs.Bytes.{byte_of};
ghost use Rattle.point_packing.specs.inner.Store.{stored};

// All eight, in one store of the machine.
pub(crate) fn store8(out: &mut [u8], at: usize, v: u64)
    requires { at + 8 ≤ length out.old }
    ensures { out.new ≡ written out.old at (byte_of v) 8 }
{
    out[at..at + 8].copy_from_slice(&v.to_le_bytes());
}

// The numbers of the first `count` of eight points, all eight bytes of each. (Where each begins is added up beside its index, as
// in the form whose speed was measured.)
pub(crate) fn store_all(out: &mut [u8], size: usize, i: usize, v: [u64; 8], count: usize)
    requires { (size ≤ 8) × (i ≤ 4096) × (count ≤ 8) × ((k : ℕ) → k < count → size * (i + k) + 8 ≤ length out.old) }
    ensures { out.new ≡ stored size v i count out.old }
{
    let mut at = size * i;
    for j in 0..count {
        store8(out, at, v[j]);
        at += size;
    }
}

// The lowest `size`, a byte a turn: a copy of so few bytes, of a length that the compiler does not know, would be a call of
// `memcpy`. (Not inlined: it is called for a line's last points alone, and inlined made the loop of eight points a sixth longer.)
#[inline(never)]
pub(crate) fn store_low(out: &mut [u8], at: usize, size: usize, v: u64)
    requires { at + size ≤ length out.old }
    ensures { out.new ≡ written out.old at (byte_of v) size }
{
    let mut rest = v;
    for j in 0..size {
        out[at + j] = (rest % 256) as u8;
        rest /= 256;
    }
}
