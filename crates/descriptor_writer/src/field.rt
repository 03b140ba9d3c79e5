// The three fields of a point in the order in which their samples stand.
ghost use Rattle.std.specs.Prelude.{◌≡◌};
ghost use Rattle.descriptor_writer.specs.Field.{fields_of};

use layout::Layout;

// A channel and the bit offset of its field.
#[derive(Clone, Copy)]
pub struct Field {
    pub channel: u8,
    pub offset: u8,
}

// All three, in rising bit offset. A type of its own and not one with `Samples` that is generic in what it holds: nothing is done
// to both.
#[derive(Clone, Copy)]
pub struct Fields {
    pub first: Field,
    pub second: Field,
    pub third: Field,
}

impl Fields {
    // The fields of a layout: the lower of the first two and the higher, and the third before, between or after them. (std's sort
    // keeps two of one offset as they stand, and the definition puts the later first.)
    #[tactic(auto, unfolding(crate::specs::Field::fields_of, crate::specs::Field::rising))]
    pub(crate) fn of(layout: Layout) -> Fields
        ensures { result ≡ fields_of layout }
    {
        let a = Field {
            channel: 0,
            offset: layout.offset0,
        };
        let b = Field {
            channel: 1,
            offset: layout.offset1,
        };
        let c = Field {
            channel: 2,
            offset: layout.offset2,
        };
        let (low, high) = if a.offset < b.offset { (a, b) } else { (b, a) };
        if high.offset < c.offset {
            Fields {
                first: low,
                second: high,
                third: c,
            }
        } else if low.offset < c.offset {
            Fields {
                first: low,
                second: c,
                third: high,
            }
        } else {
            Fields {
                first: c,
                second: low,
                third: high,
            }
        }
    }
}
