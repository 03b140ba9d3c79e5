// What the programs that list a stack share: from an open file to standard output (document 01, "The stack list").
#![tactic(auto)]

ghost use Rattle.std.specs.Prelude.{◌≡◌, length, ◌≤◌, IfOk};
ghost use Rattle.listing.specs.List.{list_text};
ghost use Rattle.listing.specs.Text.{longest_list};
ghost use Rattle.listing_program.specs.Ran.{ListedAs, fits, Holds};

use card_table::Card;
use refusal::Refusal;
use std::io;
use std::io::{Read, Write};

// What was read and listed.
#[derive(Clone, Copy)]
pub struct Listed {
    // So many bytes were read,
    pub read: usize,

    // and the list of them, of so many bytes, is at the front of the text.
    pub bytes: usize,
}

// Why nothing is listed.
#[derive(Clone, Copy, Debug, PartialEq, Eq)]
pub enum RunError {
    // A read failed.
    NotRead,

    // Nothing was read.
    Refused(Refusal),
}

// One byte more than the largest stack has, so that a longer input is seen to be too long.
pub const MOST_READ: usize = Card::SIZE * Card::STACK_LIMIT + 1;

// No list is longer.
pub const LONGEST: usize = listing::LONGEST;

// Whether a buffer and a text are as long as the program needs them.
fn fit(buffer: usize, text: usize) -> bool
    ensures { result ≡ fits buffer text }
{
    (buffer == MOST_READ) & (LONGEST <= text)
}

// Reads until the buffer is full, the input ends or a read fails. A pipe may give its bytes in any pieces.
fn read_all<R: Read>(input: &mut R, buffer: &mut [u8]) -> io::Result<usize>
    ensures { IfOk result (λ n. n ≤ length buffer.new) }
{
    let mut done: usize = 0;
    while done < buffer.len() {
        let n = input.read(&mut buffer[done..])?;
        if n == 0 {
            break;
        }
        done += n;
    }
    Ok(done)
}

// Puts the list of a stack at the front of `text`, and answers how many bytes it has. A text of that length is never refused.
fn text_of(stack: &[u8], text: &mut [u8]) -> usize
    requires { longest_list ≤ length text.old }
    ensures { ListedAs result (list_text stack.now) text.old text.new }
{
    listing::list(stack, text).unwrap()
}

// Tells what went wrong. (Where that can't be told either, there is no one left to tell.)
fn tell<W: Write>(errors: &mut W, message: &[u8]) {
    let _ = errors.write_all(message);
}

fn print<W: Write, E: Write>(output: &mut W, errors: &mut E, text: &[u8]) {
    if output.write_all(text).is_err() {
        tell(
            errors,
            b"stack list: standard output could not be written\n",
        );
    }
}

// Reads a stack from an input into the buffer, puts its list at the front of the text and prints that on an output. Where reading
// fails, nothing is listed. What went wrong is told on `errors`. Refused by 13: a buffer that is not of MOST_READ bytes, or a text
// that could not hold every list.
pub fn run<R: Read, W: Write, E: Write>(
    input: &mut R,
    output: &mut W,
    errors: &mut E,
    buffer: &mut [u8],
    text: &mut [u8],
) -> Result<Listed, RunError>
    ensures { Holds result buffer.old buffer.new text.old text.new }
{
    if !fit(buffer.len(), text.len()) {
        return Err(RunError::Refused(Refusal::WrongLineOrOutput));
    }
    let Ok(read) = read_all(input, buffer) else {
        tell(errors, b"stack list: the stack could not be read\n");
        return Err(RunError::NotRead);
    };
    let bytes = text_of(&buffer[..read], text);
    print(output, errors, &text[..bytes]);
    Ok(Listed { read, bytes })
}
