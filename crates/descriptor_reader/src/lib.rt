// A descriptor read: 76 bytes that tell a layout (document 01, "Descriptor").
#![tactic(auto)]

ghost use Rattle.std.specs.Prelude.{◌≡◌};
ghost use Rattle.descriptor_reader.specs.Reading.{read_descriptor};

use descriptor_layout::read_samples;
use descriptor_samples::DESCRIPTOR_SIZE;
use layout::Layout;
use refusal::Refusal;

mod header;
mod number;
mod sample;

// The layout that the bytes tell. Refused: 1 to 6, in this order.
#[tactic(auto, unfolding(crate::specs::Reading::read_descriptor))]
pub fn read(bytes: &[u8]) -> Result<Layout, Refusal>
    ensures answer { result ≡ read_descriptor bytes.now }
{
    let Ok(bytes) = <&[u8; DESCRIPTOR_SIZE]>::try_from(bytes) else {
        return Err(Refusal::WrongLength);
    };
    if !header::header_right(bytes) {
        return Err(Refusal::WrongHeader);
    }
    if !header::color_right(bytes) {
        return Err(Refusal::WrongColor);
    }
    if !header::planes_right(bytes) {
        return Err(Refusal::WrongPlanes);
    }
    read_samples(bytes[12], bytes[13], bytes[20], sample::samples_in(bytes))
}
