// The parameters of a picture by the paper's numbers: models, primaries, channels, ranges and depths (document 01, "Layout").
#![tactic(auto)]

ghost use Rattle.std.specs.Prelude.{◌≡◌};
ghost use Rattle.parameters.specs.Parameters.{model_known, primaries_known, channel_known};

mod channels;
mod depth;
mod kind;
mod range;

pub use channels::Channels;
pub use depth::Depth;
pub use kind::Kind;
pub use range::Range;

// Model 1 is R'G'B', 2 is Y'CbCr.
pub fn model_known(model: u8) -> bool
    ensures { result ≡ model_known model }
{
    (model == 1) | (model == 2)
}

// Primaries 1 BT.709, 2 BT.601 EBU, 3 BT.601 SMPTE, 4 BT.2020.
pub fn primaries_known(primaries: u8) -> bool
    ensures { result ≡ primaries_known primaries }
{
    (1 <= primaries) & (primaries <= 4)
}

// Channels 0, 1 and 2 are R', G', B' or Y', Cb, Cr.
pub fn channel_known(channel: u8) -> bool
    ensures { result ≡ channel_known channel }
{
    channel < 3
}
