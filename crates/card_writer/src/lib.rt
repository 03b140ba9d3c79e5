// A card written: the 32 bytes of an item's facts (document 01, "Card").
#![tactic(auto)]

ghost use Rattle.std.specs.Prelude.{◌≡◌, length};
ghost use Rattle.card_writer.specs.Writing.{unwritable, write_answer, write_output};

use card_edition::{access, edition};
use card_table::{Card, Facts};
use refusal::Refusal;

// Whether an edition has no place for the layout or the access.
#[tactic(auto, unfolding(crate::specs::Writing::unwritable))]
fn unwritable(edition: u8, facts: Facts) -> bool
    ensures { result ≡ unwritable edition facts }
{
    (edition < facts.least_edition())
        | (!edition::has_access(edition) & (facts.access != access::CLOSED))
}

// Writes the card of the facts at an edition. Refused: 7, 9, 16, 11, 13; `out` is then as it was.
#[tactic(auto, unfolding(crate::specs::Writing::write_answer, crate::specs::Writing::write_output))]
pub fn write(edition: u8, facts: Facts, out: &mut [u8]) -> Result<(), Refusal>
    ensures answer { result ≡ write_answer edition facts (length out.old) }
    ensures memory { out.new ≡ write_output edition facts out.old }
{
    if !edition::known(edition) {
        return Err(Refusal::UnknownEdition);
    }
    // All three tests come before any answer, so that the compiler inlines all.
    let valid = facts.valid();
    let odd = facts.odd_width();
    let late = unwritable(edition, facts);
    if !valid {
        return Err(Refusal::Outside);
    }
    if odd {
        return Err(Refusal::OddCount);
    }
    if late {
        return Err(Refusal::Unwritable);
    }
    if out.len() != Card::SIZE {
        return Err(Refusal::WrongLineOrOutput);
    }
    out.copy_from_slice(&Card::of(edition, facts).bytes);
    Ok(())
}
