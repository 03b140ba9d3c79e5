// The list of a stack, as text (document 01, "The stack list").
#![tactic(auto)]

ghost use Rattle.std.specs.Prelude.{◌≡◌, length, ◌≤◌};
ghost use Rattle.stack.specs.Stack.{cards_in};
ghost use Rattle.listing.specs.List.{card_lines, list_text};
ghost use Rattle.listing.specs.Text.{text_answer, text_output};
ghost use Rattle.text_writer.specs.Put.{Wrote};

use card_table::Card;
use refusal::Refusal;
use stack::whole;
use text_writer::TextWriter;

mod field;
mod line;

// No list has more bytes than this: a first line of 16, and 1,024 of 41. specs/Text.antt has the same.
pub const LONGEST: usize = 42000;

// Stores the lines of all cards of a stack, one after the other.
fn put_cards(stack: &[u8], text: &mut TextWriter<'_>)
    requires { text.old.at ≤ length text.old.out.now }
    ensures { Wrote (card_lines stack.now (cards_in (length stack.now))) text.old text.new }
{
    for card in stack.chunks_exact(Card::SIZE) {
        line::put_card(card, text);
    }
}

// Writes the list of a stack to the front of an output: what is behind the text stays. Refused by 13: an output that could
// not hold every list; `out` is then as it was. A stack that is refused has a list of one line.
pub fn list(stack: &[u8], out: &mut [u8]) -> Result<usize, Refusal>
    ensures answer { result ≡ text_answer (list_text stack.now) (length out.old) }
    ensures memory { out.new ≡ text_output (list_text stack.now) out.old }
{
    if out.len() < LONGEST {
        return Err(Refusal::WrongLineOrOutput);
    }
    let mut text = TextWriter::new(out);
    line::put_first(stack.len(), &mut text);
    if whole(stack.len()) {
        put_cards(stack, &mut text);
    }
    Ok(text.at)
}
