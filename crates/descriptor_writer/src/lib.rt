// A descriptor written: the 76 bytes that tell a layout (document 01, "Descriptor").
#![tactic(auto)]

ghost use Rattle.std.specs.Prelude.{◌≡◌, length};
ghost use Rattle.descriptor_writer.specs.Writing.{write_answer, write_output};

use crate::parts::{front_bytes, sample_bytes};
use crate::sample::samples_of;
use crate::store::put;
use descriptor_samples::DESCRIPTOR_SIZE;
use layout::Layout;
use refusal::Refusal;

mod field;
mod numbers;
mod parts;
mod sample;
mod store;

pub use field::{Field, Fields};

// Writes the descriptor of a layout. Refused: 9, also for groups (request A6), then 13; `out` is then as it was.
#[tactic(auto, unfolding(crate::specs::Writing::write_answer, crate::specs::Writing::write_output))]
pub fn write(layout: Layout, out: &mut [u8]) -> Result<(), Refusal>
    ensures answer { result ≡ write_answer layout (length out.old) }
    ensures memory { out.new ≡ write_output layout out.old }
{
    if !layout.valid_points() {
        return Err(Refusal::Outside);
    }
    if out.len() != DESCRIPTOR_SIZE {
        return Err(Refusal::WrongLineOrOutput);
    }
    let samples = samples_of(layout);
    put(&front_bytes(layout), 0, out);
    put(&sample_bytes(samples.first), 28, out);
    put(&sample_bytes(samples.second), 44, out);
    put(&sample_bytes(samples.third), 60, out);
    Ok(())
}
