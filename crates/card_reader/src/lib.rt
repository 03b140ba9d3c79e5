// A card read: 32 bytes that hold the facts of an item (document 01, "Card").
#![tactic(auto)]

ghost use Rattle.std.specs.Prelude.{◌≡◌};
ghost use Rattle.card_reader.specs.Reading.{read_card, shows_item};

use card_edition::{access, edition};
use card_table::{Card, Facts};
use refusal::Refusal;

mod end;
mod front;
mod number;

// What a card shows at an edition. Refused: 1, 7, 9 where byte 0 is 0, 8, 9 for
// bytes 1 to 23 and a byte 0 that is not the layout's, 16, 10, 9 for bytes 24 to 31.
#[tactic(auto, unfolding(crate::specs::Reading::read_card))]
pub fn read(bytes: &[u8], edition: u8) -> Result<Facts, Refusal>
    ensures answer { result ≡ read_card bytes.now edition }
{
    let Ok(bytes) = <&[u8; Card::SIZE]>::try_from(bytes) else {
        return Err(Refusal::WrongLength);
    };
    if !edition::known(edition) {
        return Err(Refusal::UnknownEdition);
    }
    if bytes[0] == 0 {
        return Err(Refusal::Outside);
    }
    if edition < bytes[0] {
        return Err(Refusal::LaterEdition);
    }
    let facts = front::facts_in(bytes, edition);
    if !front::front_right(bytes, facts) {
        return Err(Refusal::Outside);
    }
    // All three tests come before any answer. With a return between them the compiler takes a later test to be rare, does
    // not inline it, and `read` takes twice as long.
    let odd = facts.odd_width();
    let unknown = access::unknown(bytes[1], bytes[24], edition);
    let wrong = end::end_wrong(bytes, edition);
    if odd {
        return Err(Refusal::OddCount);
    }
    if unknown {
        return Err(Refusal::UnknownAccess);
    }
    if wrong {
        return Err(Refusal::Outside);
    }
    Ok(facts)
}

// Whether an edition reads a card and it has the item's number. The number is looked at first: most cards of a stack have
// another, and need not be read.
pub fn shows_item(bytes: &[u8], edition: u8, item: u64) -> bool
    ensures { result ≡ shows_item item (read_card bytes.now edition) }
{
    if bytes.len() != Card::SIZE {
        return false;
    }
    if number::number8(bytes, 16) != item {
        return false;
    }
    read(bytes, edition).is_ok()
}
