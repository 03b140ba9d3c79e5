// The rewrites of a card, one after the other.
ghost use Rattle.std.specs.Prelude.{◌≡◌, is_ok, length};
ghost use Rattle.card_table.specs.Table.{card_size};
ghost use Rattle.lists.specs.Lists.{new_or_kept};
ghost use Rattle.card.specs.Rewriting.{rewrite_answer, rewrite_output};
ghost use Rattle.custody_rewrites.specs.Rewriting.{card_after_all, outputs_after_all, answers_after_all};
ghost use Rattle.custody_rewrites.specs.Lists.{sum, number_of, rewrites_of};

// One rewrite of the card into an output. Accepted, the output is the card from then on. Answers 0, or the refusal's number.
fn rewrite(card: &mut [u8], edition: u8, out: &mut [u8]) -> u8
    requires { length card.old ≡ card_size }
    ensures { (result ≡ number_of (rewrite_answer card.old edition (length out.old)))
        × (out.new ≡ rewrite_output card.old edition out.old)
        × (card.new ≡ new_or_kept (is_ok (rewrite_answer card.old edition (length out.old))) (rewrite_output card.old edition out.old) card.old) }
{
    match card::rewrite(card, edition, out) {
        Err(refusal) => refusal.number(),
        Ok(()) => {
            card.copy_from_slice(out);
            0
        }
    }
}

// All of them. Where the card's place and all lists fit together, each takes the card that the last accepted one left.
pub(crate) fn rewrite_each(
    card: &mut [u8],
    editions: &[u8],
    lengths: &[usize],
    outputs: &mut [u8],
    answers: &mut [u8],
)
    requires { (length card.old ≡ card_size)
        × (length lengths.now ≡ length editions.now)
        × (length answers.old ≡ length editions.now)
        × (sum lengths.now ≡ length outputs.old) }
    ensures { let rs = rewrites_of editions.now lengths.now outputs.old in
        (card.new ≡ card_after_all card.old rs)
        × (outputs.new ≡ outputs_after_all card.old rs)
        × (answers.new ≡ answers_after_all card.old rs) }
{
    let mut at: usize = 0;
    for k in 0..editions.len() {
        let end = at + lengths[k];
        answers[k] = rewrite(card, editions[k], &mut outputs[at..end]);
        at = end;
    }
}
