// The C interface of fields: include/imurraqi.h declares the same functions.
#![tactic(auto)]

ghost use Rattle.std.specs.Prelude.{◌≡◌};
ghost use Rattle.field.specs.Answer.{code_answer, bytes_answer};
ghost use Rattle.c_types.specs.Layouts.{layout_of};
ghost use Rattle.c_fields.specs.Numbers.{code_number, count_number, first_after};

use c_types::{layout_of, refused};

// The code of a channel, in just the bytes that hold its field.
#[unsafe(no_mangle)]
pub extern "C" fn imurraqi_field_code(layout: &[u8; 9], channel: u8, bytes: &[u8]) -> i64
    ensures answer { result ≡ code_number (code_answer (layout_of layout.now) channel bytes.now) }
{
    match field::field_code(layout_of(layout), channel, bytes) {
        Ok(code) => code as i64,
        Err(refusal) => refused(refusal.number()),
    }
}

// How many bytes of a point hold the field of a channel, and the first of them.
#[unsafe(no_mangle)]
pub extern "C" fn imurraqi_field_bytes(layout: &[u8; 9], channel: u8, first: &mut u8) -> i64
    ensures answer { result ≡ count_number (bytes_answer (layout_of layout.now) channel) }
    ensures memory { first.new ≡ first_after (bytes_answer (layout_of layout.now) channel) first.old }
{
    match field::field_bytes(layout_of(layout), channel) {
        Ok(field) => {
            *first = field.first as u8;
            field.count as i64
        }
        Err(refusal) => refused(refusal.number()),
    }
}
