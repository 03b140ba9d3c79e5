// The samples that a descriptor's bytes hold (document 01, "Descriptor").
ghost use Rattle.std.specs.Prelude.{◌≡◌, length, ◌+◌, ◌≤◌};
ghost use Rattle.descriptor_reader.specs.Sample.{sample_in, samples_in};

use crate::number::{number2, number4};
use descriptor_samples::{DESCRIPTOR_SIZE, Sample, Samples};

// The sample that the bytes from place i on hold.
#[tactic(auto, unfolding(crate::specs::Sample::sample_in))]
fn sample_in(bytes: &[u8], i: usize) -> Sample
    requires { i + 16 ≤ length bytes.now }
    ensures { result ≡ sample_in bytes.now i }
{
    Sample {
        offset: number2(bytes, i),
        length: bytes[i + 2],
        channel: bytes[i + 3],
        position: number4(bytes, i + 4),
        lower: number4(bytes, i + 8),
        upper: number4(bytes, i + 12),
    }
}

// The samples of a descriptor.
#[tactic(auto, unfolding(crate::specs::Sample::samples_in))]
pub(crate) fn samples_in(bytes: &[u8; DESCRIPTOR_SIZE]) -> Samples
    ensures { result ≡ samples_in bytes.now }
{
    Samples {
        first: sample_in(bytes, 28),
        second: sample_in(bytes, 44),
        third: sample_in(bytes, 60),
    }
}
