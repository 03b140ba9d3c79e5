// What is made of a picture file's header, binary PPM (request A7), before any byte is stored: the layout of the points, the
// facts of the card, and how long the file and both outputs must be.
#![tactic(auto)]

ghost use Rattle.std.specs.Prelude.{◌≡◌};
ghost use Rattle.parameters.specs.Parameters.{bits_of, top_of};
ghost use Rattle.ppm_card.specs.Card.{given_known, import_fits, import_length};

use card_table::Card;
use parameters::Depth;
use refusal::Refusal;

mod facts;

pub use facts::{depth_of_top, facts_of};

// Whether the item and the primaries that are given are the paper's.
pub fn given_known(item: u64, primaries: u8) -> bool
    ensures { result ≡ given_known item primaries }
{
    (1 <= item) & parameters::primaries_known(primaries)
}

// Whether a file with `head` bytes of header, a card and packed points are exactly as long as so many points need.
pub fn lengths_fit(
    depth: Depth,
    points: u32,
    head: usize,
    ppm: usize,
    card: usize,
    packed: usize,
) -> bool
    ensures { result ≡ import_fits (top_of (bits_of depth)) points head ppm card packed }
{
    if ppm < head {
        return false;
    }
    let n = points as usize;
    let each = 3 * ppm_raster::code_bytes(depth);
    let size = facts::bytes_of(depth) as usize;
    (ppm - head == each * n) & (card == Card::SIZE) & (packed == size * n)
}

// How many bytes the packed points of a picture file have: its header says it. Refused by 18: a header that is not of our form.
pub fn import_length(ppm: &[u8]) -> Result<u32, Refusal>
    ensures answer { result ≡ import_length ppm.now }
{
    let header = ppm_header::read(ppm)?;
    let depth = depth_of_top(header.top);
    let points = header.width as u32 * header.height as u32;
    Ok(facts::bytes_of(depth) as u32 * points)
}
