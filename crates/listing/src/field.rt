// The fields of a line.
ghost use Rattle.listing.specs.Words.{access_word};
ghost use Rattle.listing.specs.List.{item_text, size_text, number_line};
ghost use Rattle.text_writer.specs.Put.{Wrote};

use card_edition::access;
use text_writer::TextWriter;

// Stores the word of an access.
fn put_access(access: u8, text: &mut TextWriter<'_>)
    ensures { Wrote (access_word access) text.old text.new }
{
    if access == access::OPEN {
        text.put(b"open");
    } else if access == access::COMMUNITY {
        text.put(b"community");
    } else {
        text.put(b"closed");
    }
}

// Stores the item and the access, each with a space behind it.
pub(crate) fn put_item(item: u64, access: u8, text: &mut TextWriter<'_>)
    ensures { Wrote (item_text item access) text.old text.new }
{
    text.put_number(item);
    text.put_byte(b' ');
    put_access(access, text);
    text.put_byte(b' ');
}

// Stores the size, and ends the line.
pub(crate) fn put_size(width: u16, height: u16, text: &mut TextWriter<'_>)
    ensures { Wrote (size_text width height) text.old text.new }
{
    text.put_number(width as u64);
    text.put_byte(b'x');
    text.put_number(height as u64);
    text.put_byte(b'\n');
}

// Stores words and a number, and ends the line.
pub(crate) fn put_line(words: &[u8], n: u64, text: &mut TextWriter<'_>)
    ensures { Wrote (number_line words.now n) text.old text.new }
{
    text.put(words);
    text.put_number(n);
    text.put_byte(b'\n');
}
