// The codes of a picture file's raster, binary PPM (request A7): taken from its bytes, and looked at.
#![tactic(auto)]

ghost use Rattle.std.specs.Prelude.{◌≡◌};
ghost use Rattle.parameters.specs.Parameters.{bits_of};
ghost use Rattle.line.specs.Line.{codes_within};
ghost use Rattle.ppm_codes.specs.Codes.{raster_codes, codes_output};

use parameters::Depth;
use ppm_raster::code_bytes;

mod take;

// Takes codes from bytes. Nothing is stored where the codes are not exactly as many as the bytes hold.
pub fn take_codes(depth: Depth, raster: &[u8], codes: &mut [u16])
    ensures memory { codes.new ≡ codes_output (bits_of depth) raster.now codes.old }
{
    if code_bytes(depth) == 1 {
        take::codes::<1>(raster, codes);
    } else {
        take::codes::<2>(raster, codes);
    }
}

// Whether no code is above the highest of the depth. At 8 bits no byte is.
pub fn within(depth: Depth, raster: &[u8]) -> bool
    ensures answer { result ≡ codes_within (bits_of depth) (raster_codes (bits_of depth) raster.now) }
{
    if code_bytes(depth) == 1 {
        return true;
    }
    take::all_within(raster, depth.top())
}
