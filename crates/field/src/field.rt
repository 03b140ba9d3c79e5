// A field, and the one function that reads a code.
ghost use Rattle.std.specs.Prelude.{◌≡◌, ◌+◌, ◌-◌, ◌*◌, ◌%◌, ◌<◌, ◌≤◌, length, get_or};
ghost use Rattle.layout.specs.Layout.{offset_of};
ghost use Rattle.line.specs.Point.{bits};
ghost use Rattle.field.specs.Field.{field_at, field_of};
ghost use Rattle.field.specs.inner.Read.{read_code};

use layout::Layout;

// `first` is the first byte of a point that holds the field, `count` how many do, `from` the bit of the first at which the field
// begins, and `bits` how many it has.
#[derive(Clone, Copy)]
pub struct Field {
    pub first: usize,
    pub count: usize,
    pub from: u8,
    pub bits: u8,
}

// The bit offset of a channel.
fn offset_of(layout: Layout, channel: u8) -> u8
    ensures { result ≡ offset_of layout channel }
{
    match channel {
        0 => layout.offset0,
        1 => layout.offset1,
        _ => layout.offset2,
    }
}

impl Field {
    // `bits` bits at a bit offset. (The count is made so that the compiler sees that it is not 0.)
    fn at(offset: u8, bits: u8) -> Field
        ensures { result ≡ field_at offset bits }
    {
        let from = offset % 8;
        let more = bits.saturating_sub(1);
        Field {
            first: (offset / 8) as usize,
            count: (from as usize + more as usize) / 8 + 1,
            from,
            bits,
        }
    }

    // The field of a channel; any channel but 0 and 1 is taken for 2. (Whether the paper has the layout, and a layout such a
    // channel, is asked by `valid` and `channel_known`.)
    pub fn of(layout: Layout, channel: u8) -> Field
        ensures { result ≡ field_of layout channel }
    {
        Field::at(offset_of(layout, channel), layout.depth)
    }

    // The field in a number of two or three bytes. (The remainders only make the shifts fit, whatever the numbers are. By 8 in
    // place of 32 the compiler would know the shift to be small, and work in 16 bits, from which the way to a float is a step longer.)
    fn cut(self, number: u32) -> u16
        ensures { result ≡ bits (self.bits % 16) (self.from % 32) number }
    {
        let from = (self.from % 32) as u32;
        let bits = (self.bits % 16) as u32;
        ((number >> from) & ((1 << bits) - 1)) as u16
    }

    // The code in the bytes of the field: every code of a line comes from here. A field of one byte is that byte. In a loop the
    // number of bytes is the same at every turn, so that the compiler takes the choice out of it.
    pub fn code(self, bytes: &[u8]) -> u16
        ensures { result ≡ read_code self bytes.now }
    {
        match bytes {
            [] => 0,
            [byte] => u16::from(*byte),
            [low, high] => self.cut(u32::from(*low) + u32::from(*high) * 256),
            [low, middle, high, ..] => {
                self.cut(u32::from(*low) + u32::from(*middle) * 256 + u32::from(*high) * 65536)
            }
        }
    }
}
