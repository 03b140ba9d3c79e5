// A closed card and packed points from a picture file, binary PPM (request A7).
#![tactic(auto)]

ghost use Rattle.std.specs.Prelude.{◌≡◌, length, is_ok};
ghost use Rattle.lists.specs.Lists.{new_or_kept};
ghost use Rattle.parameters.specs.Parameters.{bits_of, top_of};
ghost use Rattle.line.specs.Line.{packed_of};
ghost use Rattle.card_table.specs.Table.{card_bytes};
ghost use Rattle.ppm_import.specs.Import.{import_edition, codes_after, import_answer, import_card, import_packed};
ghost use Rattle.ppm_import.specs.inner.Picture.{Headed, answer_of};

use card_table::Facts;
use parameters::Depth;
use refusal::Refusal;

mod blocks;

pub use ppm_card::import_length;

// The edition at which the card is written. specs/Import.antt has the same.
const EDITION: u8 = 2;

// The answer to a file with `head` bytes of header, and the outputs. Nothing is stored before every code is seen to fit.
fn take(
    ppm: &[u8],
    head: usize,
    depth: Depth,
    facts: Facts,
    card: &mut [u8],
    packed: &mut [u8],
) -> Result<u32, Refusal>
    requires { Headed facts depth }
    ensures answer { result ≡ answer_of facts depth head ppm.now card.old packed.old }
    ensures card { card.new ≡ new_or_kept (is_ok (answer_of facts depth head ppm.now card.old packed.old)) (card_bytes import_edition facts) card.old }
    ensures packed { packed.new ≡ new_or_kept (is_ok (answer_of facts depth head ppm.now card.old packed.old)) (packed_of facts.layout (codes_after (top_of (bits_of depth)) head ppm.now)) packed.old }
{
    let points = facts.width as u32 * facts.height as u32;
    if !ppm_card::lengths_fit(depth, points, head, ppm.len(), card.len(), packed.len()) {
        return Err(Refusal::WrongLineOrOutput);
    }
    if !ppm_codes::within(depth, &ppm[head..]) {
        return Err(Refusal::WrongPicture);
    }
    // (The facts of a header are not refused.)
    let _ = card_writer::write(EDITION, facts, card);
    let layout = facts.layout;
    blocks::points(layout, depth, &ppm[head..], packed, points as usize);
    Ok(points)
}

// Makes a closed card and packed points of a picture file. Refused: 9 for the item or the primaries, then 18 for the header, then
// 13 if what follows it or an output is not exactly as long as needed, then 18 for a code above the largest; both outputs are
// then as they were.
pub fn import(
    ppm: &[u8],
    item: u64,
    primaries: u8,
    card: &mut [u8],
    packed: &mut [u8],
) -> Result<u32, Refusal>
    ensures answer { result ≡ import_answer ppm.now item primaries (length card.old) (length packed.old) }
    ensures card { card.new ≡ import_card ppm.now item primaries card.old (length packed.old) }
    ensures packed { packed.new ≡ import_packed ppm.now item primaries (length card.old) packed.old }
{
    if !ppm_card::given_known(item, primaries) {
        return Err(Refusal::Outside);
    }
    let header = ppm_header::read(ppm)?;
    let depth = ppm_card::depth_of_top(header.top);
    let facts = ppm_card::facts_of(primaries, depth, header.width, header.height, item);
    take(ppm, header.length, depth, facts, card, packed)
}
