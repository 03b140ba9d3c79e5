// Whether what a replay is given fits together.
ghost use Rattle.std.specs.Prelude.{◌≡◌, eqb, length};
ghost use Rattle.custody_rewrites.specs.Lists.{sum, fitting};

use card::Card;

// Whether the lengths add up to the total. They are taken off it one by one, as their sum could be too large.
fn fill(lengths: &[usize], total: usize) -> bool
    ensures { result ≡ eqb (sum lengths.now) total }
{
    let mut left = total;
    for length in lengths {
        if left < *length {
            return false;
        }
        left -= *length;
    }
    left == 0
}

// The sizes of the card's place, the outputs and the answers, beside the lists of editions and lengths.
pub(crate) fn fits(
    card: usize,
    editions: &[u8],
    lengths: &[usize],
    outputs: usize,
    answers: usize,
) -> bool
    ensures { result ≡ fitting card editions.now lengths.now outputs answers }
{
    (card == Card::SIZE)
        & (lengths.len() == editions.len())
        & (answers == editions.len())
        & fill(lengths, outputs)
}
