// A line of floats encoded to points of their own: each value's code on its channel's scale, the codes packed, and the values
// that were cut counted.
ghost use Rattle.std.specs.Prelude.{◌≡◌, true, ◌*◌, ◌<◌, ◌≤◌, length, get_or};
ghost use Rattle.std.specs.Float.{nan};
ghost use Rattle.layout.specs.Layout.{valid_points};
ghost use Rattle.scales.specs.inner.Fitted.{Fitted};
ghost use Rattle.line.specs.Line.{joined as joinedOf, point_byte};
ghost use Rattle.line.specs.inner.Points.{points_packed};
ghost use Rattle.lists.specs.Lists.{count};
ghost use Rattle.unit_encoding.specs.Number.{IsNumber};
ghost use Rattle.unit_encoding.specs.Units.{UnitFacts};
ghost use Rattle.point_encoding.specs.inner.Floats.{float_scales, InFloats};
ghost use Rattle.line_values.specs.Encode.{quantized_of, value_cut, cuts_of, all_numbers};

use float_scale::FloatScale;
use layout::Layout;
use line::Joined;
use parameters::Channels;
use scale::Scale;
use unit_encoding::{Number, Units};

// Whether every value is a number. There is no early exit: it costs more than it spares.
pub(crate) fn all_numbers(values: &[f32]) -> bool
    ensures { result ≡ all_numbers values.now }
{
    let mut ok = true;
    for value in values {
        ok = ok & (*value == *value);
    }
    ok
}

// The points of a line of numbers, and the scales of their channels in f64, worked out once for the line.
#[derive(Clone, Copy)]
pub struct Points<'a> {
    pub layout: Layout,
    pub scales: Channels<FloatScale>,
    pub values: &'a [f32],
    pub n: usize,
    ghost valid: { valid_points layout ≡ true },
    ghost fitted: { InFloats layout scales },
    ghost numbers: { all_numbers values.now ≡ true },
    ghost fits: { length values.now ≡ 3 * n },
    ghost known: { UnitFacts layout.bytes n (joinedOf layout (quantized_of layout values.now)) (point_byte layout (quantized_of layout values.now)) (λ i. count (3 * i) (value_cut layout values.now)) },
}

impl Points<'_> {
    // Value k of the line.
    fn number(self, k: usize) -> Number
        requires { k < length self.values.now }
        ensures value { result.value ≡ get_or self.entry.values.now k nan }
        ensures number { IsNumber result.value }
    {
        Number {
            value: self.values[k] as f64,
        }
    }
}

impl Units for Points<'_> {
    ghost size = { λ p. p.layout.bytes };

    ghost count = { λ p. p.n };

    ghost number = { λ p. joinedOf p.layout (quantized_of p.layout p.values.now) };

    ghost byte = { λ p. point_byte p.layout (quantized_of p.layout p.values.now) };

    ghost cuts = { λ p i. count (3 * i) (value_cut p.layout p.values.now) };

    ghost known = { λ p. p.known };

    fn size(self) -> usize {
        self.layout.bytes as usize
    }

    fn count(self) -> usize {
        self.n
    }

    #[inline(always)]
    fn joined(self, start: usize, j: usize) -> Joined {
        if !unit_encoding::is_there(self.n, start, j) {
            return Joined { number: 0, cuts: 0 };
        }
        let i = start + j;
        let scales = self.scales;
        let a = self.number(3 * i).code(scales.channel0);
        let b = self.number(3 * i + 1).code(scales.channel1);
        let c = self.number(3 * i + 2).code(scales.channel2);
        Joined {
            number: point_joining::join(self.layout, a.code, b.code, c.code),
            cuts: a.cut as u64 + b.cut as u64 + c.cut as u64,
        }
    }
}

fn in_floats(scales: Channels<Scale>) -> Channels<FloatScale>
    ensures { result ≡ float_scales scales }
{
    Channels {
        channel0: FloatScale::from(scales.channel0),
        channel1: FloatScale::from(scales.channel1),
        channel2: FloatScale::from(scales.channel2),
    }
}

// The bytes of a line of n points; the answer is how many values were cut.
pub(crate) fn encode(
    layout: Layout,
    scales: Channels<Scale>,
    values: &[f32],
    out: &mut [u8],
    n: usize,
) -> u64
    requires layout_value { (valid_points layout ≡ true) × Fitted layout scales × (all_numbers values.now ≡ true) }
    requires values_len { (length values.now ≡ 3 * n) × (length out.old ≡ layout.bytes * n) × (n ≤ 4096) }
    ensures cuts { result ≡ cuts_of layout values.now }
    ensures memory { out.new ≡ points_packed layout (quantized_of layout values.now) }
{
    let scales = in_floats(scales);
    unit_encoding::encode(
        Points {
            layout,
            scales,
            values,
            n,
        },
        out,
    )
}
