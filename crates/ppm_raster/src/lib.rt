// The raster of a picture file, binary PPM (request A7): codes as bytes, big-endian, one byte each at 8 bits, else two.
#![tactic(auto)]

ghost use Rattle.std.specs.Prelude.{◌≡◌};
ghost use Rattle.parameters.specs.Parameters.{bits_of};
ghost use Rattle.ppm_raster.specs.Raster.{code_bytes, raster_output};

use parameters::Depth;

mod store;

// The bytes of a code.
pub fn code_bytes(depth: Depth) -> usize
    ensures { result ≡ code_bytes (bits_of depth) }
{
    match depth {
        Depth::Eight => 1,
        Depth::Ten => 2,
        Depth::Twelve => 2,
    }
}

// Stores codes as bytes. Nothing is stored where the output is not exactly as long as needed.
pub fn put_codes(depth: Depth, codes: &[u16], out: &mut [u8])
    ensures memory { out.new ≡ raster_output (bits_of depth) codes.now out.old }
{
    if code_bytes(depth) == 1 {
        store::codes::<1>(codes, out);
    } else {
        store::codes::<2>(codes, out);
    }
}
