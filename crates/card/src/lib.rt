// The card: 32 bytes that hold the facts of an item, read and written at an edition, and found in a stack (document 01, "Card").
#![tactic(auto)]

ghost use Rattle.std.specs.Prelude.{◌≡◌, length};
ghost use Rattle.card.specs.Rewriting.{rewrite_answer, rewrite_output};

pub use card_finder::find_card;
pub use card_reader::read;
pub use card_table::{Card, Facts};
pub use card_writer::write;
pub use refusal::Refusal;
pub use stack::{find, locate};

// Reads a card at an edition and writes what it shows at the same. Refused: as reading is, then 13; `out` is then as it was.
pub fn rewrite(bytes: &[u8], edition: u8, out: &mut [u8]) -> Result<(), Refusal>
    ensures answer { result ≡ rewrite_answer bytes.now edition (length out.old) }
    ensures memory { out.new ≡ rewrite_output bytes.now edition out.old }
{
    let facts = read(bytes, edition)?;
    write(edition, facts, out)
}
