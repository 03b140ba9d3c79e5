// The lines of the list.
ghost use Rattle.std.specs.Prelude.{Ok};
ghost use Rattle.listing.specs.List.{reading_line, card_line, first_line};
ghost use Rattle.text_writer.specs.Put.{Wrote};

use crate::field::{put_item, put_line, put_size};
use card_edition::edition;
use card_reader::read;
use card_table::{Card, Facts};
use refusal::Refusal;
use stack::whole;
use text_writer::TextWriter;

// Stores the line of a card's facts.
fn put_facts(facts: Facts, text: &mut TextWriter<'_>)
    ensures { Wrote (reading_line (Ok facts)) text.old text.new }
{
    put_item(facts.item, facts.access, text);
    put_size(facts.width, facts.height, text);
}

// Stores the line of a card, as the newest edition shows it.
pub(crate) fn put_card(card: &[u8], text: &mut TextWriter<'_>)
    ensures { Wrote (card_line card.now) text.old text.new }
{
    match read(card, edition::NEWEST) {
        Err(refusal) => put_line(b"- refused ", refusal.number() as u64, text),
        Ok(facts) => put_facts(facts, text),
    }
}

// Stores the first line for a stack of so many bytes.
pub(crate) fn put_first(bytes: usize, text: &mut TextWriter<'_>)
    ensures { Wrote (first_line bytes) text.old text.new }
{
    if whole(bytes) {
        put_line(b"cards ", (bytes / Card::SIZE) as u64, text);
    } else {
        put_line(
            b"stack refused ",
            Refusal::WrongLength.number() as u64,
            text,
        );
    }
}
