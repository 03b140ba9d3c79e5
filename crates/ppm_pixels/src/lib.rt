// Packed points as the bytes of a picture file, binary PPM (request A7), a block at a time: there is no heap, and the stack is
// small.
#![tactic(auto)]

ghost use Rattle.std.specs.Prelude.{◌≡◌, true, ◌*◌, ◌≤◌, length};
ghost use Rattle.parameters.specs.Parameters.{depth_of};
ghost use Rattle.layout.specs.Layout.{valid_layout};
ghost use Rattle.ppm_pixels.specs.Pixels.{pixels_of, pixels_output};
ghost use Rattle.ppm_pixels.specs.inner.Unit.{unit_codes, unit_bytes, Ready};

use full_rgb::Way;
use layout::Layout;
use parameters::Depth;

// The most codes of a block, three a point.
const CODES: usize = 480;

// The codes of a point of its own, or of a group.
fn codes_each(layout: Layout) -> usize
    ensures { result ≡ unit_codes layout }
{
    if layout.grouped() { 6 } else { 3 }
}

// A block of n points or groups, by way of their codes and their full-range codes.
fn block(
    layout: Layout,
    depth: Depth,
    way: Way,
    packed: &[u8],
    codes: &mut [u16],
    full: &mut [u16],
    out: &mut [u8],
    n: usize,
)
    requires ready { Ready layout depth way × (n ≤ 160) }
    requires packed_len { (length packed.now ≡ layout.bytes * n) × (length out.old ≡ unit_bytes layout * n) }
    requires codes_len { (length codes.old ≡ unit_codes layout * n) × (length full.old ≡ unit_codes layout * n) }
    ensures { out.new ≡ pixels_of layout packed.now }
{
    // (Lines of these lengths are not refused.)
    let _ = unpacking::unpack_line(layout, packed, codes);
    full_rgb::convert(way, codes, full);
    ppm_raster::put_codes(depth, full, out);
}

// All blocks of n points or groups, each of which is `size` bytes packed, `each` codes, and `wide` bytes in the file. What
// blocks need in common is worked out before: the way, the sizes, and the memory for their codes.
fn blocks(
    layout: Layout,
    depth: Depth,
    way: Way,
    size: usize,
    each: usize,
    wide: usize,
    packed: &[u8],
    out: &mut [u8],
    n: usize,
)
    requires ready { Ready layout depth way }
    requires size_value { (size ≡ layout.bytes) × (each ≡ unit_codes layout) × (wide ≡ unit_bytes layout) }
    requires packed_len { (length packed.now ≡ layout.bytes * n) × (length out.old ≡ unit_bytes layout * n) }
    ensures { out.new ≡ pixels_of layout packed.now }
{
    let mut codes = [0u16; CODES];
    let mut full = [0u16; CODES];
    let most = CODES / each;

    // By index: of an output that is lent in pieces by `chunks_mut` nothing but its length would be known.
    let mut i: usize = 0;
    while i < n {
        let left = n - i;
        let k = left.min(most);
        let next = i + k;
        let from = size * i;
        let to = size * next;
        let start = wide * i;
        let end = wide * next;
        let m = each * k;
        block(
            layout,
            depth,
            way,
            &packed[from..to],
            &mut codes[..m],
            &mut full[..m],
            &mut out[start..end],
            k,
        );
        i = next;
    }
}

// All points of a layout that the paper has. Lengths that do not agree leave the output as it was.
fn all(layout: Layout, depth: Depth, packed: &[u8], out: &mut [u8])
    requires { (valid_layout layout ≡ true) × (depth ≡ depth_of layout.depth) }
    ensures { out.new ≡ pixels_output layout packed.now out.old }
{
    let size = layout.bytes as usize;
    let each = codes_each(layout);
    let wide = ppm_raster::code_bytes(depth) * each;
    let n = packed.len() / size;
    if !((packed.len() % size == 0) & ((out.len() % wide == 0) & (out.len() / wide == n))) {
        return;
    }
    let way = full_rgb::way_of(layout, depth);
    blocks(layout, depth, way, size, each, wide, packed, out, n);
}

// Stores packed points as full-range R'G'B', in the file's bytes. Nothing is stored where the paper does not have the layout,
// where the packed bytes are not of whole points or groups, or where the output is not exactly as long as needed.
pub fn put(layout: Layout, packed: &[u8], out: &mut [u8])
    ensures memory { out.new ≡ pixels_output layout packed.now out.old }
{
    if !layout.valid() {
        return;
    }
    match Depth::of(layout.depth) {
        Some(depth) => all(layout, depth, packed, out),
        None => {}
    }
}
