// The C interface of cards and stacks: include/imurraqi.h declares the same functions.
#![tactic(auto)]

ghost use Rattle.std.specs.Prelude.{◌≡◌, length};
ghost use Rattle.card_reader.specs.Reading.{read_card};
ghost use Rattle.card_writer.specs.Writing.{write_answer, write_output};
ghost use Rattle.card.specs.Rewriting.{rewrite_answer, rewrite_output};
ghost use Rattle.stack.specs.Finding.{located};
ghost use Rattle.c_types.specs.Layouts.{facts_of};
ghost use Rattle.c_types.specs.Numbers.{written_number};
ghost use Rattle.c_cards.specs.Numbers.{shown_number, shown_layout, shown_facts, found_number};

use c_types::{bytes_of, facts_of, refused, written_number};

// What a card shows at an edition. Answers 0.
#[unsafe(no_mangle)]
pub extern "C" fn imurraqi_card_read(
    card: &[u8],
    edition: u8,
    layout: &mut [u8; 9],
    facts: &mut [u64; 4],
) -> i64
    ensures answer { result ≡ shown_number (read_card card.now edition) }
    ensures layout { layout.new ≡ shown_layout (read_card card.now edition) layout.old }
    ensures facts { facts.new ≡ shown_facts (read_card card.now edition) facts.old }
{
    let shown = match card::read(card, edition) {
        Ok(shown) => shown,
        Err(refusal) => return refused(refusal.number()),
    };
    *layout = bytes_of(shown.layout);
    *facts = [
        shown.width as u64,
        shown.height as u64,
        shown.item,
        shown.access as u64,
    ];
    0
}

// Writes the card of a layout, a size, an item and an access at an edition. Answers 0.
#[unsafe(no_mangle)]
pub extern "C" fn imurraqi_card_write(
    edition: u8,
    layout: &[u8; 9],
    width: u16,
    height: u16,
    item: u64,
    access: u8,
    out: &mut [u8],
) -> i64
    ensures answer { result ≡ written_number (write_answer edition (facts_of layout.now width height item access) (length out.old)) }
    ensures memory { out.new ≡ write_output edition (facts_of layout.now width height item access) out.old }
{
    let facts = facts_of(layout, width, height, item, access);
    written_number(card::write(edition, facts, out))
}

// Rewrites a card at an edition into another place. Answers 0.
#[unsafe(no_mangle)]
pub extern "C" fn imurraqi_card_rewrite(card: &[u8], edition: u8, out: &mut [u8]) -> i64
    ensures answer { result ≡ written_number (rewrite_answer card.now edition (length out.old)) }
    ensures memory { out.new ≡ rewrite_output card.now edition out.old }
{
    written_number(card::rewrite(card, edition, out))
}

// The index of the first card that the edition reads and that has the number.
#[unsafe(no_mangle)]
pub extern "C" fn imurraqi_stack_find(stack: &[u8], edition: u8, item: u64) -> i64
    ensures { result ≡ found_number (located stack.now edition item) }
{
    match card::locate(stack, edition, item) {
        Ok(index) => index as i64,
        Err(refusal) => refused(refusal.number()),
    }
}
