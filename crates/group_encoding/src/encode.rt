// A line of floats encoded to groups: each value's code on its channel's scale, the codes packed, and the values that were cut
// counted.
ghost use Rattle.std.specs.Prelude.{◌≡◌, true, ◌&&◌, ◌+◌, ◌*◌, ◌<◌, ◌≤◌, length, get_or};
ghost use Rattle.std.specs.Float.{nan};
ghost use Rattle.lists.specs.Lists.{count};
ghost use Rattle.layout.specs.Layout.{valid_groups};
ghost use Rattle.scales.specs.Channel.{scale_at};
ghost use Rattle.float_scale.specs.inner.Floats.{float_scale};
ghost use Rattle.scales.specs.inner.Fitted.{Fitted};
ghost use Rattle.line.specs.Group.{group_byte};
ghost use Rattle.line.specs.inner.Groups.{group_shared, groups_packed};
ghost use Rattle.line_values.specs.Encode.{quantized_of, cuts_of, all_numbers};
ghost use Rattle.unit_encoding.specs.Number.{IsNumber};
ghost use Rattle.unit_encoding.specs.Units.{UnitFacts};
ghost use Rattle.group_encoding.specs.inner.Groups.{group_number, counted_cut};

use float_scale::FloatScale;
use layout::Layout;
use line::Joined;
use parameters::Channels;
use scale::Scale;
use unit_encoding::{Number, Units};

// The groups of a line of numbers, and the scales of their channels in f64, worked out once for the line. Cb and Cr are
// differences, on one scale. (The layout is there for the facts alone.)
#[derive(Clone, Copy)]
pub struct Groups<'a> {
    pub layout: Layout,
    pub brightness: FloatScale,
    pub difference: FloatScale,
    pub values: &'a [f32],
    pub n: usize,
    ghost valid: { valid_groups layout ≡ true },
    ghost brightness_fits: { brightness ≡ float_scale (scale_at layout 0) },
    ghost difference_fits: { difference ≡ float_scale (scale_at layout 1) },
    ghost numbers: { all_numbers (group_shared nan values.now) ≡ true },
    ghost fits: { length values.now ≡ 6 * n },
    ghost known: { UnitFacts 4 n (group_number (quantized_of layout values.now)) (group_byte (quantized_of layout values.now)) (λ i. count (6 * i) (counted_cut layout values.now)) },
}

impl Groups<'_> {
    // Value j of group i: one of the four that are looked at.
    fn number(self, i: usize, j: usize) -> Number
        requires { (i < self.n) × (j < 4) }
        ensures value { result.value ≡ get_or self.entry.values.now (6 * i + j) nan }
        ensures number { IsNumber result.value }
    {
        Number {
            value: self.values[6 * i + j] as f64,
        }
    }
}

impl Units for Groups<'_> {
    ghost size = { λ g. 4 };

    ghost count = { λ g. g.n };

    ghost number = { λ g. group_number (quantized_of g.layout g.values.now) };

    ghost byte = { λ g. group_byte (quantized_of g.layout g.values.now) };

    ghost cuts = { λ g i. count (6 * i) (counted_cut g.layout g.values.now) };

    ghost known = { λ g. g.known };

    fn size(self) -> usize {
        4
    }

    fn count(self) -> usize {
        self.n
    }

    #[inline(always)]
    fn joined(self, start: usize, j: usize) -> Joined {
        if !unit_encoding::is_there(self.n, start, j) {
            return Joined { number: 0, cuts: 0 };
        }
        let i = start + j;
        let first = self.number(i, 0).code(self.brightness);
        let cb = self.number(i, 1).code(self.difference);
        let cr = self.number(i, 2).code(self.difference);
        let second = self.number(i, 3).code(self.brightness);
        Joined {
            number: cb.code as u64
                + 256 * first.code as u64
                + 65536 * cr.code as u64
                + 16777216 * second.code as u64,
            cuts: first.cut as u64 + cb.cut as u64 + cr.cut as u64 + second.cut as u64,
        }
    }
}

// The bytes of a line of n groups; the answer is how many values were cut.
pub(crate) fn encode(
    layout: Layout,
    scales: Channels<Scale>,
    values: &[f32],
    out: &mut [u8],
    n: usize,
) -> u64
    requires layout_value { (valid_groups layout ≡ true) × Fitted layout scales × (all_numbers (group_shared nan values.now) ≡ true) }
    requires values_len { (length values.now ≡ 6 * n) × (length out.old ≡ 4 * n) × (n ≤ 2048) }
    ensures cuts { result ≡ cuts_of layout values.now }
    ensures memory { out.new ≡ groups_packed (quantized_of layout values.now) }
{
    let brightness = FloatScale::from(scales.channel0);
    let difference = FloatScale::from(scales.channel1);
    unit_encoding::encode(
        Groups {
            layout,
            brightness,
            difference,
            values,
            n,
        },
        out,
    )
}
