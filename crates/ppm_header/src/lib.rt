// The header of a picture file, binary PPM (request A7): stored, and read.
#![tactic(auto)]

ghost use Rattle.std.specs.Prelude.{◌≡◌, length, ◌≤◌};
ghost use Rattle.text_writer.specs.Decimal.{decimal};
ghost use Rattle.text_writer.specs.Put.{Put, Wrote};
ghost use Rattle.ppm_header.specs.Text.{sides_text, header_text};
ghost use Rattle.ppm_header.specs.Header.{side_taken, top_known, header_known, begins, header_of, read_header};

use refusal::Refusal;
use text_writer::TextWriter;

mod scan;

// What a header says, with how many bytes it has.
#[derive(Clone, Copy)]
pub struct Header {
    pub width: u16,
    pub height: u16,
    pub top: u16,
    pub length: usize,
}

impl Header {
    // The largest side of a picture, whatever sides a card may have. specs/Header.antt has the same.
    pub const LARGEST_SIDE: u16 = 4096;
}

// No header of numbers of 16 bits has more bytes: three times five digits, `P6`, a space and three newlines.
const LONGEST: usize = 21;

// How many digits a number of 16 bits has.
fn digits(n: u16) -> usize
    ensures { (result ≡ length (decimal n)) × (result ≤ 5) }
{
    text_writer::count(n as u64)
}

// How many bytes the header of these numbers has.
pub fn length(width: u16, height: u16, top: u16) -> usize
    ensures answer { result ≡ length (header_text width height top) }
{
    6 + digits(width) + digits(height) + digits(top)
}

// Stores the line of the sides.
fn put_sides(width: u16, height: u16, line: &mut TextWriter<'_>)
    ensures { Wrote (sides_text width height) line.old line.new }
{
    line.put_number(width as u64);
    line.put_byte(b' ');
    line.put_number(height as u64);
    line.put_byte(b'\n');
}

// Stores the header of these numbers at the front of an output, and answers where it ends. What would lie behind the
// output's end is left out.
pub fn put(width: u16, height: u16, top: u16, out: &mut [u8]) -> usize
    ensures { Put (header_text width height top) 0 out.old out.new result }
{
    let mut text = TextWriter::new(out);
    text.put(b"P6\n");
    put_sides(width, height, &mut text);
    text.put_number(top as u64);
    text.put_byte(b'\n');
    text.at
}

// Whether a picture may have this side.
fn side_taken(side: u16) -> bool
    ensures { result ≡ side_taken side }
{
    (1 <= side) & (side <= Header::LARGEST_SIDE)
}

// Whether this is the largest code of 8, 10 or 12 bits.
fn top_known(top: u16) -> bool
    ensures { result ≡ top_known top }
{
    (top == 255) | (top == 1023) | (top == 4095)
}

// Whether a header may have these numbers.
fn known(width: u16, height: u16, top: u16) -> bool
    ensures { result ≡ header_known width height top }
{
    side_taken(width) & side_taken(height) & top_known(top)
}

// Whether a text begins with the header of these numbers.
fn agrees(s: &[u8], width: u16, height: u16, top: u16) -> bool
    ensures { result ≡ begins (header_text width height top) s.now }
{
    let mut text = [0u8; LONGEST];
    let end = put(width, height, top, &mut text);
    s.starts_with(&text[..end])
}

// The answer for a text in which these numbers were found.
fn header_of(s: &[u8], width: u16, height: u16, top: u16) -> Result<Header, Refusal>
    ensures { result ≡ header_of s.now width height top }
{
    if known(width, height, top) & agrees(s, width, height, top) {
        return Ok(Header {
            width,
            height,
            top,
            length: length(width, height, top),
        });
    }
    Err(Refusal::WrongPicture)
}

// What the header at the front of a text says: the numbers are taken where they would stand, and the header of these
// numbers is what must stand there. Refused by 18: a text that does not begin with a header of our form.
pub fn read(s: &[u8]) -> Result<Header, Refusal>
    ensures answer { result ≡ read_header s.now }
{
    let width = scan::number_from(s, 3);
    let at_height = 3 + digits(width) + 1;
    let height = scan::number_from(s, at_height);
    let at_top = at_height + digits(height) + 1;
    let top = scan::number_from(s, at_top);
    header_of(s, width, height, top)
}
