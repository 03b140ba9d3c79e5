// Looks for items at editions in the stack on standard input, and in bytes that are none. The gate runs it on
// samples/archive.stack.
#![tactic(auto)]

ghost use Rattle.std.specs.Prelude.{◌≡◌, ◌≤◌, length};
ghost use Rattle.stack.specs.Finding.{located};
ghost use Rattle.card_finder.specs.Number.{refusal_of};

use card_edition::edition;
use card_finder::find_card;
use card_reader::read;
use stack::find;
use std::io;
use std::io::{Print, Read};

// What was printed, or not: the program goes on where standard output can't be written.
fn printed(outcome: io::Result<()>) {
    outcome.unwrap_or(())
}

// The size that the newest edition shows of a part of the stack.
fn print_part(rt: &impl Print, card: &[u8]) {
    match read(card, edition::NEWEST) {
        Ok(facts) => printed(print!(rt; " {}x{}", facts.width, facts.height)),
        Err(_) => printed(print!(rt; " none")),
    }
}

fn print_found(rt: &impl Print, card: &[u8], number: u8) -> u8
    ensures { result ≡ number }
{
    printed(print!(rt; ", find_card {number}"));
    print_part(rt, card);
    printed(println!(rt; ""));
    number
}

// Prints what `find_card` gives, and answers the number.
fn show_found(rt: &impl Print, stack: &[u8], edition: u8, item: u64) -> u8
    ensures { result ≡ refusal_of (located stack.now edition item) }
{
    match find_card(stack, edition, item) {
        Ok(card) => print_found(rt, card, 0),
        Err(refusal) => print_found(rt, b"", refusal.number()),
    }
}

// One line: the edition, the item, the part that `find` gives, and the number and the part that `find_card` gives.
fn show(rt: &impl Print, stack: &[u8], edition: u8, item: u64) {
    printed(print!(rt; "{edition} {item}: find"));
    print_part(rt, find(stack, edition, item));
    show_found(rt, stack, edition, item);
}

fn show_all(rt: &impl Print, stack: &[u8]) {
    for (edition, item) in [
        (2, 203001),
        (1, 203001),
        (2, 305551),
        (1, 305551),
        (2, 412008),
        (2, 0),
        (3, 117),
        (2, 117),
        (4, 118),
        (3, 118),
        (5, 203001),
    ] {
        show(rt, stack, edition, item);
    }
}

// Reads once, and answers how many bytes came to the front of `rest`: none at the input's end, or where reading fails.
fn read_some(input: &mut impl Read, rest: &mut [u8]) -> usize
    ensures { result ≤ length rest.new }
{
    input.read(rest).unwrap_or(0)
}

// Fills the buffer from an input, as far as it goes, and answers how many bytes came.
fn read_full(input: &mut impl Read, buffer: &mut [u8]) -> usize
    ensures { result ≤ length buffer.new }
{
    let mut done: usize = 0;
    while done < buffer.len() {
        let got = read_some(input, &mut buffer[done..]);
        if got == 0 {
            break;
        }
        done += got;
    }
    done
}

fn main(rt: HostRuntime) {
    let mut buffer = [0u8; 4096];
    let length = read_full(&mut rt.stdin(), &mut buffer);
    show_all(&rt, &buffer[..length]);
    show(&rt, b"no stack", 2, 203001);
    show(&rt, b"no stack", 5, 203001);
    show(&rt, b"", 2, 203001);
}
