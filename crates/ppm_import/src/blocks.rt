// The codes of a file as packed points, a block at a time: there is no heap, and the stack is small.
ghost use Rattle.std.specs.Prelude.{◌≡◌};
ghost use Rattle.parameters.specs.Parameters.{bits_of};
ghost use Rattle.line.specs.Line.{packed_of};
ghost use Rattle.line.specs.Answer.{pack_output};
ghost use Rattle.ppm_codes.specs.Codes.{raster_codes, codes_output};
ghost use Rattle.ppm_import.specs.inner.Picture.{Ready};

use layout::Layout;
use parameters::Depth;

// The most points of a block, and their codes.
const POINTS: usize = 256;

const CODES: usize = 768;

// One block, by way of its codes.
fn block(layout: Layout, depth: Depth, raster: &[u8], codes: &mut [u16], packed: &mut [u8])
    ensures { packed.new ≡ pack_output layout (codes_output (bits_of depth) raster.now codes.old) packed.old }
{
    ppm_codes::take_codes(depth, raster, codes);
    // (Lines of these lengths are not refused.)
    let _ = packing::pack_line(layout, codes, packed);
}

// All n points. The memory for codes is made once, and not cleared again for each block.
pub(crate) fn points(layout: Layout, depth: Depth, raster: &[u8], packed: &mut [u8], n: usize)
    requires { Ready layout depth raster.now packed.old n }
    ensures { packed.new ≡ packed_of layout (raster_codes (bits_of depth) raster.now) }
{
    let size = layout.bytes as usize;
    let each = 3 * ppm_raster::code_bytes(depth);
    let mut codes = [0u16; CODES];

    // By index: of an output that is lent in pieces by `chunks_mut` nothing but its length would be known.
    let mut i: usize = 0;
    while i < n {
        let left = n - i;
        let k = left.min(POINTS);
        let next = i + k;
        let from = each * i;
        let to = each * next;
        let m = 3 * k;
        let start = size * i;
        let end = size * next;
        block(
            layout,
            depth,
            &raster[from..to],
            &mut codes[..m],
            &mut packed[start..end],
        );
        i = next;
    }
}
