// An item's card in a stack, or the refusal where there is none (document 01, "Numbers on the refusal slip").
#![tactic(auto)]

ghost use Rattle.std.specs.Prelude.{◌≡◌, IfErr, IfOk, MatchResult, Err};
ghost use Rattle.refusal.specs.Refusal.{number_of};
ghost use Rattle.stack.specs.Finding.{located, part, placed};
ghost use Rattle.card_finder.specs.Number.{refusal_of};

use card_table::Card;
use refusal::Refusal;
use stack::locate;

// The first card that the edition reads and that has the number, a part of the stack. Refused: 1, 7, 15.
pub fn find_card<'a>(stack: &'a [u8], edition: u8, item: u64) -> Result<&'a [u8], Refusal>
    ensures answer { IfOk result (λ card. card.now ≡ part stack.now (located stack.now edition item)) }
    ensures place { IfOk result (λ card. card.ref_ptr ≡ placed stack.entry.ref_ptr (located stack.now edition item)) }
    ensures number { MatchResult result (λ card. refusal_of (located stack.now edition item) ≡ 0) (λ refusal. refusal_of (located stack.now edition item) ≡ number_of refusal) }
    ensures refusal { IfErr result (λ refusal. located stack.now edition item ≡ Err refusal) }
{
    let k = locate(stack, edition, item)?;
    let start = Card::SIZE * k;
    Ok(&stack[start..start + Card::SIZE])
}
