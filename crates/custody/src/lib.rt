// The history of one card, run: the first writing, every rewrite, the last reading and the decoding by it (document 01, "The
// book of one card").
#![tactic(auto)]

ghost use Rattle.std.specs.Prelude.{◌≡◌, length};
ghost use Rattle.card_reader.specs.Reading.{read_card};
ghost use Rattle.custody_book.specs.Calls.{then_decode, then_values};
ghost use Rattle.custody.specs.Replay.{Given, replay_answer, replay_card, replay_outputs, replay_answers, replay_values};

use card::{Card, Facts};
use custody_rewrites::rewrite_all;
use refusal::Refusal;

// What a replay that began ends with.
#[derive(Clone, Copy)]
pub struct Replayed {
    pub reading: Result<Facts, Refusal>,

    // What decoding by the layout that was read answered: the reading's own refusal where that was refused.
    pub decoding: Result<usize, Refusal>,
}

// Decodes by the layout that a reading shows. Refused: as the reading was, and then as decoding is; `values` is then as it was.
fn decode_shown(
    reading: Result<Facts, Refusal>,
    packed: &[u8],
    values: &mut [f32],
) -> Result<usize, Refusal>
    ensures answer { result ≡ then_decode reading (length packed.now) (length values.old) }
    ensures memory { values.new ≡ then_values reading packed.now values.old }
{
    let facts = reading?;
    decoding::decode_line(facts.layout, packed, values)
}

// The last reading, and the decoding by the layout that it shows.
fn read_last(card: &[u8], last: u8, packed: &[u8], values: &mut [f32]) -> Replayed
    ensures answer { result ≡ record {
      reading = read_card card.now last;
      decoding = then_decode (read_card card.now last) (length packed.now) (length values.old);
    } }
    ensures memory { values.new ≡ then_values (read_card card.now last) packed.now values.old }
{
    let reading = card::read(card, last);
    let decoding = decode_shown(reading, packed, values);
    Replayed { reading, decoding }
}

// Writes a card from the facts at the first edition; rewrites it at each edition, into an output of so many bytes, one after
// the other in `outputs`; reads it at the last edition; and decodes the line by the layout that is shown. Afterwards `card` is
// the card last written, and `answers` holds 0 or a refusal's number for each rewrite. Refused, with nothing changed: 7, 9,
// 16 or 11 as the first writing is; then 13, where the slices do not fit together.
pub fn replay(
    first: u8,
    facts: Facts,
    card: &mut [u8],
    editions: &[u8],
    lengths: &[usize],
    outputs: &mut [u8],
    answers: &mut [u8],
    last: u8,
    packed: &[u8],
    values: &mut [f32],
) -> Result<Replayed, Refusal>
    ensures { (let g : Given = record {
      first = first;
      facts = facts;
      card = card.old;
      editions = editions.now;
      lengths = lengths.now;
      outputs = outputs.old;
      answers = answers.old;
      last = last;
      packed = packed.now;
      values = values.old;
    } in
        (result ≡ replay_answer g)
        × (card.new ≡ replay_card g)
        × (outputs.new ≡ replay_outputs g)
        × (answers.new ≡ replay_answers g)
        × (values.new ≡ replay_values g)) }
{
    let mut start = [0u8; Card::SIZE];
    card::write(first, facts, &mut start)?;
    if !rewrite_all(&start, card, editions, lengths, outputs, answers) {
        return Err(Refusal::WrongLineOrOutput);
    }
    Ok(read_last(card, last, packed, values))
}
