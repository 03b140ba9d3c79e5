// The C interface of descriptors: include/imurraqi.h declares the same functions.
#![tactic(auto)]

ghost use Rattle.std.specs.Prelude.{◌≡◌, length};
ghost use Rattle.descriptor_reader.specs.Reading.{read_descriptor};
ghost use Rattle.descriptor_writer.specs.Writing.{write_answer, write_output};
ghost use Rattle.c_types.specs.Layouts.{layout_of};
ghost use Rattle.c_types.specs.Numbers.{written_number};
ghost use Rattle.c_descriptors.specs.Numbers.{read_number, read_layout};

use c_types::{bytes_of, layout_of, refused, written_number};

// The layout that a descriptor tells. Answers 0.
#[unsafe(no_mangle)]
pub extern "C" fn imurraqi_descriptor_read(bytes: &[u8], layout: &mut [u8; 9]) -> i64
    ensures answer { result ≡ read_number (read_descriptor bytes.now) }
    ensures memory { layout.new ≡ read_layout (read_descriptor bytes.now) layout.old }
{
    match descriptor::read(bytes) {
        Ok(accepted) => {
            *layout = bytes_of(accepted);
            0
        }
        Err(refusal) => refused(refusal.number()),
    }
}

// Writes the descriptor of a layout. Answers 0.
#[unsafe(no_mangle)]
pub extern "C" fn imurraqi_descriptor_write(layout: &[u8; 9], out: &mut [u8]) -> i64
    ensures answer { result ≡ written_number (write_answer (layout_of layout.now) (length out.old)) }
    ensures memory { out.new ≡ write_output (layout_of layout.now) out.old }
{
    written_number(descriptor::write(layout_of(layout), out))
}
