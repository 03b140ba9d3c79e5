// What is made of a header: the layout of the points, and the facts of the card.
ghost use Rattle.std.specs.Prelude.{◌≡◌};
ghost use Rattle.parameters.specs.Parameters.{bits_of, depth_of, top_of};
ghost use Rattle.ppm_card.specs.Card.{depth_of_top, bytes_of_top, import_layout, import_facts};

use card_edition::access;
use card_table::Facts;
use layout::Layout;
use parameters::Depth;

// The depth of a header's largest code: 255, 1023 or 4095. Any other number is taken for twelve bits.
pub fn depth_of_top(top: u16) -> Depth
    ensures { result ≡ depth_of (depth_of_top top) }
{
    if top == 255 {
        Depth::Eight
    } else if top == 1023 {
        Depth::Ten
    } else {
        Depth::Twelve
    }
}

// The bits of a code.
fn bits_of(depth: Depth) -> u8
    ensures { result ≡ bits_of depth }
{
    match depth {
        Depth::Eight => 8,
        Depth::Ten => 10,
        Depth::Twelve => 12,
    }
}

// The bytes of a point: the fewest that hold three codes.
pub(crate) fn bytes_of(depth: Depth) -> u8
    ensures { result ≡ bytes_of_top (top_of (bits_of depth)) }
{
    match depth {
        Depth::Eight => 3,
        Depth::Ten => 4,
        Depth::Twelve => 5,
    }
}

// R'G'B' in full range, one code behind the other.
fn layout_of(primaries: u8, depth: Depth) -> Layout
    ensures { result ≡ import_layout primaries (top_of (bits_of depth)) }
{
    let bits = bits_of(depth);
    Layout {
        model: 1,
        primaries,
        range: 2,
        depth: bits,
        bytes: bytes_of(depth),
        offset0: 0,
        offset1: bits,
        offset2: 2 * bits,
        sampling: 0,
    }
}

// A file says nothing of access, so the card is closed.
pub fn facts_of(primaries: u8, depth: Depth, width: u16, height: u16, item: u64) -> Facts
    ensures { result ≡ import_facts primaries (top_of (bits_of depth)) width height item }
{
    Facts {
        layout: layout_of(primaries, depth),
        width,
        height,
        item,
        access: access::CLOSED,
    }
}
