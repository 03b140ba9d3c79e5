// The rewrites of one card, run one after the other (document 01, "The book of one card").
#![tactic(auto)]

ghost use Rattle.std.specs.Prelude.{◌≡◌, length};
ghost use Rattle.lists.specs.Lists.{new_or_kept};
ghost use Rattle.custody_rewrites.specs.Lists.{fitting, rewrites_of};
ghost use Rattle.custody_rewrites.specs.Rewriting.{card_after_all, outputs_after_all, answers_after_all};

use card::Card;

mod fits;
mod rewrites;

// Stores the first card in `card`, and rewrites it at each edition, into an output of so many bytes, one after the other in
// `outputs`. Each takes the card that the last accepted one wrote, and `card` is then the card last written; `answers` holds 0
// or a refusal's number for each. Answers whether the slices fit together; where they do not, nothing is changed.
pub fn rewrite_all(
    first: &[u8; Card::SIZE],
    card: &mut [u8],
    editions: &[u8],
    lengths: &[usize],
    outputs: &mut [u8],
    answers: &mut [u8],
) -> bool
    ensures { let fits = fitting (length card.old) editions.now lengths.now (length outputs.old) (length answers.old) in
        let rs = rewrites_of editions.now lengths.now outputs.old in
        (result ≡ fits)
        × (card.new ≡ new_or_kept fits (card_after_all first.now rs) card.old)
        × (outputs.new ≡ new_or_kept fits (outputs_after_all first.now rs) outputs.old)
        × (answers.new ≡ new_or_kept fits (answers_after_all first.now rs) answers.old) }
{
    if !fits::fits(card.len(), editions, lengths, outputs.len(), answers.len()) {
        return false;
    }
    card.copy_from_slice(first);
    rewrites::rewrite_each(card, editions, lengths, outputs, answers);
    true
}
