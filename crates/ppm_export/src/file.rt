// The file of a picture: its header, and then its points.
ghost use Rattle.std.specs.Prelude.{◌≡◌, true, ◌^◌, ◌<◌, length};
ghost use Rattle.parameters.specs.Parameters.{depth_of};
ghost use Rattle.ppm_export.specs.Export.{picture_bytes, picture_of, export_fits};
ghost use Rattle.ppm_export.specs.inner.Picture.{Known, units_of};

use card_table::Facts;
use parameters::Depth;

// The depth of a number that is known. (Any other is taken for 12, and no card has one.)
fn depth_of(number: u8) -> Depth
    ensures { result ≡ depth_of number }
{
    Depth::of(number).unwrap_or(Depth::Twelve)
}

// How many points of their own, or groups, the packed lines have.
fn units(facts: Facts) -> usize
    requires { Known facts }
    ensures { result ≡ units_of facts }
{
    let layout = facts.layout;
    let n = facts.width as usize * facts.height as usize;
    if layout.grouped() { n / 2 } else { n }
}

// How many bytes the file has.
pub(crate) fn bytes(facts: Facts) -> usize
    requires { Known facts }
    ensures { (result ≡ picture_bytes facts) × (result < 2 ^ 32) }
{
    let layout = facts.layout;
    let depth = depth_of(layout.depth);
    let n = facts.width as usize * facts.height as usize;
    let header = ppm_header::length(facts.width, facts.height, depth.top());
    header + 3 * ppm_raster::code_bytes(depth) * n
}

// Whether the packed lines and the output have exactly the bytes of the picture.
pub(crate) fn fits(facts: Facts, packed: usize, output: usize) -> bool
    requires { Known facts }
    ensures { result ≡ export_fits facts packed output }
{
    let layout = facts.layout;
    let size = layout.bytes as usize;
    (packed == size * units(facts)) & (output == bytes(facts))
}

// Stores the file.
pub(crate) fn put(facts: Facts, packed: &[u8], out: &mut [u8])
    requires { Known facts × (export_fits facts (length packed.now) (length out.old) ≡ true) }
    ensures { out.new ≡ picture_of facts packed.now }
{
    let layout = facts.layout;
    let depth = depth_of(layout.depth);
    let at = ppm_header::put(facts.width, facts.height, depth.top(), out);
    ppm_pixels::put(layout, packed, &mut out[at..]);
}
