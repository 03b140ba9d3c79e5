// Codes taken from bytes.
ghost use Rattle.std.specs.Prelude.{◌≡◌, ◌+◌, ◌*◌, ◌≤◌, length, leb};
ghost use Rattle.lists.specs.Lists.{every};
ghost use Rattle.ppm_codes.specs.Codes.{code_by, codes_by, taken_by};

// Code i, of BYTES bytes, one or two, the high one first.
fn code<const BYTES: usize>(raster: &[u8], i: usize) -> u16
    requires size { (1 ≤ BYTES) × (BYTES ≤ 2) }
    requires within { BYTES * i + BYTES ≤ length raster.now }
    ensures { result ≡ code_by BYTES raster.now i }
{
    if BYTES == 1 {
        raster[i] as u16
    } else {
        u16::from_be_bytes([raster[2 * i], raster[2 * i + 1]])
    }
}

// All codes. (An index, since one slice is read and another written.)
pub(crate) fn codes<const BYTES: usize>(raster: &[u8], codes: &mut [u16])
    requires { (1 ≤ BYTES) × (BYTES ≤ 2) }
    ensures { codes.new ≡ taken_by BYTES raster.now codes.old }
{
    let n = codes.len();
    if !((raster.len() % BYTES == 0) & (raster.len() / BYTES == n)) {
        return;
    }
    for i in 0..n {
        codes[i] = code::<BYTES>(raster, i);
    }
}

// Whether no code of two bytes is above the top; an odd byte at the end is none. There is no early exit, as `all` has one: it
// costs more than it spares.
pub(crate) fn all_within(raster: &[u8], top: u16) -> bool
    ensures { result ≡ every (λ c. leb c top) (codes_by 2 raster.now) }
{
    let mut within = true;
    for i in 0..raster.len() / 2 {
        within = within & (code::<2>(raster, i) <= top);
    }
    within
}
