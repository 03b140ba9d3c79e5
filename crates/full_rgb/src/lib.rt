// Codes of any layout as full-range R'G'B' of its depth (request A7).
#![tactic(auto)]

ghost use Rattle.std.specs.Prelude.{◌≡◌};
ghost use Rattle.full_rgb.specs.inner.Way.{rgb_way, ycbcr_way, way_of, full_by};

use color_line::FloatRows;
use layout::Layout;
use parameters::Depth;

mod stretch;

pub use stretch::Stretch;

// The paper's numbers of Y'CbCr, of narrow range and of full range: numbers, since a layout has them so, as C hands it over.
const YCBCR: u8 = 2;

const NARROW: u8 = 1;

const FULL: u8 = 2;

// How the points of a picture become full-range R'G'B', worked out once: those of R'G'B' code by code, those of Y'CbCr by the
// rows of their conversion.
#[derive(Clone, Copy)]
pub enum Way {
    Each(Stretch),
    Rows(FloatRows),
}

// The way of R'G'B' of a range.
fn of_rgb(range: u8, depth: Depth) -> Way
    ensures { result ≡ rgb_way range depth }
{
    if range == NARROW {
        Way::Each(Stretch::of_narrow(depth))
    } else {
        Way::Each(Stretch::of_full(depth))
    }
}

// The way of Y'CbCr. (One that the paper does not convert has that of R'G'B'.)
fn of_ycbcr(layout: Layout, depth: Depth) -> Way
    ensures { result ≡ ycbcr_way layout depth }
{
    let range = layout.range;
    match color_rows::to_rgb(layout.primaries, layout.depth, range, FULL) {
        Some(conversion) => Way::Rows(conversion.rows),
        None => of_rgb(range, depth),
    }
}

// The way of a layout's points, of the layout's depth.
pub fn way_of(layout: Layout, depth: Depth) -> Way
    ensures { result ≡ way_of layout depth }
{
    if layout.model == YCBCR {
        of_ycbcr(layout, depth)
    } else {
        of_rgb(layout.range, depth)
    }
}

// Converts codes, three a point, into a second line. One that is not of the same length, or a length that is no multiple of
// three, leaves it as it was.
pub fn convert(way: Way, codes: &[u16], out: &mut [u16])
    ensures { out.new ≡ full_by way codes.now out.old }
{
    match way {
        Way::Each(stretch) => stretch::each(stretch, codes, out),
        Way::Rows(rows) => {
            color_line::convert(rows, codes, out);
        }
    }
}
