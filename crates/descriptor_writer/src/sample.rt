// The samples of a layout (document 01, "Descriptor").
ghost use Rattle.std.specs.Prelude.{◌≡◌, true};
ghost use Rattle.parameters.specs.Parameters.{depth_known};
ghost use Rattle.descriptor_writer.specs.Sample.{sample_of, samples_of};

use crate::field::{Field, Fields};
use crate::numbers::{depth_of, range_of};
use descriptor_samples::{Limits, Sample, Samples};
use layout::Layout;
use parameters::Kind;

// The sample of a field.
fn sample_of(layout: Layout, field: Field) -> Sample
    requires { depth_known layout.depth ≡ true }
    ensures { result ≡ sample_of layout field }
{
    let kind = Kind::of(layout.model, field.channel);
    let limits = Limits::of(range_of(layout.range), depth_of(layout.depth), kind);
    Sample {
        offset: field.offset as u16,
        length: layout.depth - 1,
        channel: field.channel,
        position: 0,
        lower: limits.lower as u32,
        upper: limits.upper as u32,
    }
}

// The samples of all three fields, in rising bit offset.
#[tactic(auto, unfolding(crate::specs::Sample::samples_of))]
pub(crate) fn samples_of(layout: Layout) -> Samples
    requires { depth_known layout.depth ≡ true }
    ensures { result ≡ samples_of layout }
{
    let fields = Fields::of(layout);
    Samples {
        first: sample_of(layout, fields.first),
        second: sample_of(layout, fields.second),
        third: sample_of(layout, fields.third),
    }
}
