// The layout that a descriptor's samples tell (document 01, "Descriptor").
#![tactic(auto)]

ghost use Rattle.std.specs.Prelude.{◌≡◌, true, cond, Err};
ghost use Rattle.layout.specs.Layout.{bytes_known};
ghost use Rattle.descriptor_samples.specs.Samples.{samples_right};
ghost use Rattle.descriptor_layout.specs.Told.{offset_in, layout_from, read_samples};

use descriptor_samples::Samples;
use layout::{Layout, bytes_known};
use parameters::{Depth, Range};
use refusal::Refusal;

// The bit offset of a channel.
#[tactic(auto, unfolding(crate::specs::Told::offset_in))]
fn offset_in(samples: Samples, channel: u8) -> u16
    ensures { result ≡ offset_in samples channel }
{
    if samples.first.channel == channel {
        samples.first.offset
    } else if samples.second.channel == channel {
        samples.second.offset
    } else {
        samples.third.offset
    }
}

// The layout of these numbers and samples, of points of their own: a descriptor tells no groups (request A6).
#[tactic(auto, using(crate::proofs::Right::length_lt, crate::proofs::Right::offset_lt), unfolding(crate::specs::Told::layout_from))]
fn layout_from(model: u8, primaries: u8, range: Range, bytes: u8, samples: Samples) -> Layout
    requires { (bytes_known bytes ≡ true) × (samples_right bytes samples ≡ true) }
    ensures { result ≡ layout_from model primaries range bytes samples }
{
    Layout {
        model,
        primaries,
        range: range.number(),
        depth: samples.first.length + 1,
        bytes,
        offset0: offset_in(samples, 0) as u8,
        offset1: offset_in(samples, 1) as u8,
        offset2: offset_in(samples, 2) as u8,
        sampling: 0,
    }
}

// The layout that the samples tell with what stands before them. Refused: 4 for bytes a point that no layout has, 5, 6.
#[tactic(auto, using(crate::proofs::Right::length_lt), unfolding(crate::specs::Told::read_samples))]
pub fn read_samples(
    model: u8,
    primaries: u8,
    bytes: u8,
    samples: Samples,
) -> Result<Layout, Refusal>
    ensures { result ≡ cond (bytes_known bytes) (read_samples model primaries bytes samples) (Err Refusal.WrongPlanes) }
{
    if !bytes_known(bytes) {
        return Err(Refusal::WrongPlanes);
    }
    if !samples.right(bytes) {
        return Err(Refusal::WrongSample);
    }
    let depth = Depth::of(samples.first.length + 1).ok_or(Refusal::WrongSample)?;
    let range = samples.range(model, depth).ok_or(Refusal::NoRange)?;
    Ok(layout_from(model, primaries, range, bytes, samples))
}
