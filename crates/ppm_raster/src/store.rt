// Codes stored as bytes.
ghost use Rattle.std.specs.Prelude.{◌≡◌, ◌≤◌};
ghost use Rattle.ppm_raster.specs.Raster.{stored_by};

// BYTES bytes a code, one or two, the high one first: of a higher code, the low ones. (An index, since one slice is read and
// another written.)
pub(crate) fn codes<const BYTES: usize>(codes: &[u16], out: &mut [u8])
    requires { (1 ≤ BYTES) × (BYTES ≤ 2) }
    ensures { out.new ≡ stored_by BYTES codes.now out.old }
{
    let n = codes.len();
    if !((out.len() % BYTES == 0) & (out.len() / BYTES == n)) {
        return;
    }
    for i in 0..n {
        let start = BYTES * i;
        let end = start + BYTES;
        let bytes = codes[i].to_be_bytes();
        out[start..end].copy_from_slice(&bytes[2 - BYTES..]);
    }
}
