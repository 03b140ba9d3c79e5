// A picture file, binary PPM, from a card and its packed lines (request A7).
#![tactic(auto)]

ghost use Rattle.std.specs.Prelude.{◌≡◌, length};
ghost use Rattle.ppm_export.specs.Export.{read_for_export, export_answer, export_output, export_length};

use card_edition::access;
use card_table::Facts;
use refusal::Refusal;

mod file;

// The number of the older full range.
const LEGACY_FULL: u8 = 3;

// What is read for an export. Refused: as the reading at that edition is, then 9 for range 3, then 17 if the access that is
// shown is not open.
fn read(card: &[u8], edition: u8) -> Result<Facts, Refusal>
    ensures { result ≡ read_for_export card.now edition }
{
    let facts = card_reader::read(card, edition)?;
    if facts.layout.range == LEGACY_FULL {
        return Err(Refusal::Outside);
    }
    if facts.access != access::OPEN {
        return Err(Refusal::NotOpen);
    }
    Ok(facts)
}

// Writes the picture file of a card, read at an edition, and its packed points, all lines in one slice. Nothing is stored before
// all refusals are excluded. Refused: as the reading is, then 9 for range 3, then 17 if the card is not open, then 13.
pub fn export(card: &[u8], edition: u8, packed: &[u8], out: &mut [u8]) -> Result<u32, Refusal>
    ensures answer { result ≡ export_answer card.now edition (length packed.now) (length out.old) }
    ensures memory { out.new ≡ export_output card.now edition packed.now out.old }
{
    let facts = read(card, edition)?;
    if !file::fits(facts, packed.len(), out.len()) {
        return Err(Refusal::WrongLineOrOutput);
    }
    file::put(facts, packed, out);
    Ok(facts.width as u32 * facts.height as u32)
}

// How long the picture file of a card will be. Refused: as `export` is, but for 13.
pub fn export_length(card: &[u8], edition: u8) -> Result<u32, Refusal>
    ensures answer { result ≡ export_length card.now edition }
{
    let facts = read(card, edition)?;
    Ok(file::bytes(facts) as u32)
}
