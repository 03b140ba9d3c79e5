// Whether bytes 0 to 27 of a descriptor are right (document 01, "Descriptor").
ghost use Rattle.std.specs.Prelude.{◌≡◌, length};
ghost use Rattle.descriptor_reader.specs.Header.{zeros, header_right, color_right, planes_right};

use crate::number::{number2, number4};
use descriptor_samples::DESCRIPTOR_SIZE;
use layout::bytes_known;

// Whether bytes 0 to 11 are right: total size, vendor and type, version, block size.
#[tactic(auto, unfolding(crate::specs::Header::header_right))]
pub(crate) fn header_right(bytes: &[u8; DESCRIPTOR_SIZE]) -> bool
    ensures { result ≡ header_right bytes.now }
{
    (number4(bytes, 0) == 76)
        & (number4(bytes, 4) == 0)
        & (number2(bytes, 8) == 1)
        & (number2(bytes, 10) == 72)
}

// Whether bytes 12 to 15 are: model, primaries, transfer, flags.
#[tactic(auto, unfolding(crate::specs::Header::color_right))]
pub(crate) fn color_right(bytes: &[u8; DESCRIPTOR_SIZE]) -> bool
    ensures { result ≡ color_right bytes.now }
{
    parameters::model_known(bytes[12])
        & parameters::primaries_known(bytes[13])
        & (bytes[14] == 3)
        & (bytes[15] == 0)
}

// Whether all of the bytes are zero.
fn all_zero(bytes: &[u8]) -> bool
    ensures { result ≡ zeros bytes.now 0 (length bytes.now) }
{
    bytes.iter().all(|byte| *byte == 0)
}

// Whether bytes 16 to 27 are: zeros, but for the bytes a point.
#[tactic(auto, unfolding(crate::specs::Header::planes_right))]
pub(crate) fn planes_right(bytes: &[u8; DESCRIPTOR_SIZE]) -> bool
    ensures { result ≡ planes_right bytes.now }
{
    all_zero(&bytes[16..20]) & bytes_known(bytes[20]) & all_zero(&bytes[21..28])
}
