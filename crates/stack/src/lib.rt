// A stack of cards, and an item found in it (document 01, "Card" and "Numbers on the refusal slip").
#![tactic(auto)]

ghost use Rattle.std.specs.Prelude.{◌≡◌, ◌+◌, ◌*◌, ◌≤◌, Ok, length};
ghost use Rattle.card_table.specs.Table.{card_size};
ghost use Rattle.stack.specs.Stack.{card_at, whole_stack};
ghost use Rattle.stack.specs.Finding.{located, part, placed};

use card_edition::edition;
use card_table::Card;
use refusal::Refusal;

// Whether so many bytes are a stack: whole cards, and no more than 1,024.
pub fn whole(bytes: usize) -> bool
    ensures { result ≡ whole_stack bytes }
{
    (bytes % Card::SIZE == 0) & (bytes / Card::SIZE <= Card::STACK_LIMIT)
}

// Card k of a stack that holds it, the first being card 0.
pub(crate) fn card_at(stack: &[u8], k: usize) -> &[u8]
    requires { card_size * k + card_size ≤ length stack.now }
    ensures answer { result.now ≡ card_at stack.now k }
    ensures place { result.ref_ptr ≡ placed stack.entry.ref_ptr (Ok k) }
{
    let start = Card::SIZE * k;
    &stack[start..start + Card::SIZE]
}

// The index of the first card that the edition reads and that has the number. Refused: 1, 7, 15.
pub fn locate(stack: &[u8], edition: u8, item: u64) -> Result<usize, Refusal>
    ensures { result ≡ located stack.now edition item }
{
    let complete = whole(stack.len());
    let known = edition::known(edition);
    if !complete {
        return Err(Refusal::WrongLength);
    }
    if !known {
        return Err(Refusal::UnknownEdition);
    }
    let cards = stack.len() / Card::SIZE;
    // Document 01 names this form: a loop that yields the card's index by break, or none.
    let mut i: usize = 0;
    loop {
        if i == cards {
            break Err(Refusal::NoItem);
        }
        if card_reader::shows_item(card_at(stack, i), edition, item) {
            break Ok(i);
        }
        i += 1;
    }
}

// That card itself, a part of the stack; the empty part where `locate` refuses.
pub fn find<'a>(stack: &'a [u8], edition: u8, item: u64) -> &'a [u8]
    ensures answer { result.now ≡ part stack.now (located stack.now edition item) }
    ensures place { result.ref_ptr ≡ placed stack.entry.ref_ptr (located stack.now edition item) }
{
    match locate(stack, edition, item) {
        Ok(k) => card_at(stack, k),
        Err(_) => &stack[0..0],
    }
}
