// The C interface of the history of one card: include/imurraqi.h declares the same function.
#![tactic(auto)]

ghost use Rattle.std.specs.Prelude.{◌≡◌};
ghost use Rattle.custody.specs.Replay.{Given, replay_answer, replay_card, replay_outputs, replay_answers, replay_values};
ghost use Rattle.c_types.specs.Layouts.{facts_of};
ghost use Rattle.c_history.specs.History.{read_numbers, decoded_numbers, replay_number, replay_read, replay_decoded};

use c_types::{facts_of, refused};
use card_table::Facts;
use refusal::Refusal;

// The numbers of the last reading.
fn read_numbers(reading: Result<Facts, Refusal>) -> [u64; 14]
    ensures { result ≡ read_numbers reading }
{
    match reading {
        Ok(facts) => {
            let layout = facts.layout;
            [
                0,
                layout.model as u64,
                layout.primaries as u64,
                layout.range as u64,
                layout.depth as u64,
                layout.bytes as u64,
                layout.offset0 as u64,
                layout.offset1 as u64,
                layout.offset2 as u64,
                layout.sampling as u64,
                facts.width as u64,
                facts.height as u64,
                facts.item,
                facts.access as u64,
            ]
        }
        Err(refusal) => [
            refusal.number() as u64,
            0,
            0,
            0,
            0,
            0,
            0,
            0,
            0,
            0,
            0,
            0,
            0,
            0,
        ],
    }
}

// The numbers of the decoding.
fn decoded_numbers(decoding: Result<usize, Refusal>) -> [u64; 2]
    ensures { result ≡ decoded_numbers decoding }
{
    match decoding {
        Ok(count) => [0, count as u64],
        Err(refusal) => [refusal.number() as u64, 0],
    }
}

// Writes, rewrites, reads and decodes by one card. Answers 0.
#[unsafe(no_mangle)]
pub extern "C" fn imurraqi_replay(
    first: u8,
    layout: &[u8; 9],
    width: u16,
    height: u16,
    item: u64,
    access: u8,
    card: &mut [u8],
    editions: &[u8],
    lengths: &[usize],
    outputs: &mut [u8],
    answers: &mut [u8],
    last: u8,
    packed: &[u8],
    values: &mut [f32],
    read: &mut [u64; 14],
    decoded: &mut [u64; 2],
) -> i64
    ensures { (let g : Given = record {
      first = first;
      facts = facts_of layout.now width height item access;
      card = card.old;
      editions = editions.now;
      lengths = lengths.now;
      outputs = outputs.old;
      answers = answers.old;
      last = last;
      packed = packed.now;
      values = values.old;
    } in
        (result ≡ replay_number (replay_answer g))
        × (card.new ≡ replay_card g)
        × (outputs.new ≡ replay_outputs g)
        × (answers.new ≡ replay_answers g)
        × (values.new ≡ replay_values g)
        × (read.new ≡ replay_read (replay_answer g) read.old)
        × (decoded.new ≡ replay_decoded (replay_answer g) decoded.old)) }
{
    let facts = facts_of(layout, width, height, item, access);
    let replayed = custody::replay(
        first, facts, card, editions, lengths, outputs, answers, last, packed, values,
    );
    match replayed {
        Ok(ended) => {
            *read = read_numbers(ended.reading);
            *decoded = decoded_numbers(ended.decoding);
            0
        }
        Err(refusal) => refused(refusal.number()),
    }
}
