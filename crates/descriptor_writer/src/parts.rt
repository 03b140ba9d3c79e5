// The parts of a descriptor as bytes (document 01, "Descriptor").
ghost use Rattle.std.specs.Prelude.{◌≡◌};
ghost use Rattle.descriptor_writer.specs.Sample.{sample_bytes};
ghost use Rattle.descriptor_writer.specs.Writing.{front_bytes};

use descriptor_samples::Sample;
use layout::Layout;

// Bytes 0 to 27 of a layout's descriptor.
#[tactic(auto, unfolding(crate::specs::Writing::front_bytes, lists::specs::Bytes::bytes_of))]
pub(crate) fn front_bytes(layout: Layout) -> [u8; 28]
    ensures { result ≡ front_bytes layout }
{
    let mut bytes = [0; 28];
    bytes[0] = 76;
    bytes[8] = 1;
    bytes[10] = 72;
    bytes[12] = layout.model;
    bytes[13] = layout.primaries;
    bytes[14] = 3;
    bytes[20] = layout.bytes;
    bytes
}

// A sample's bytes.
#[tactic(auto, unfolding(crate::specs::Sample::sample_bytes))]
pub(crate) fn sample_bytes(sample: Sample) -> [u8; 16]
    ensures { result ≡ sample_bytes sample }
{
    let mut bytes = [0; 16];
    bytes[..2].copy_from_slice(&sample.offset.to_le_bytes());
    bytes[2] = sample.length;
    bytes[3] = sample.channel;
    bytes[4..8].copy_from_slice(&sample.position.to_le_bytes());
    bytes[8..12].copy_from_slice(&sample.lower.to_le_bytes());
    bytes[12..].copy_from_slice(&sample.upper.to_le_bytes());
    bytes
}
