// The 32 bytes of a card.
ghost use Rattle.std.specs.Prelude.{◌≡◌};
ghost use Rattle.card_table.specs.Table.{card_bytes};

use crate::facts::Facts;

// A card as it is written.
#[derive(Clone, Copy)]
pub struct Card {
    pub bytes: [u8; Card::SIZE],
}

impl Card {
    // The bytes of a card.
    pub const SIZE: usize = 32;

    // The most cards in a stack.
    pub const STACK_LIMIT: usize = 1024;

    // The largest width, and so the largest height.
    pub const LARGEST_WIDTH: u16 = 4096;

    // The card of the facts, written at an edition: the table. (Of any facts and at any edition: `write` asks first whether
    // they are valid.)
    pub fn of(edition: u8, facts: Facts) -> Card
        ensures answer { result.bytes ≡ card_bytes edition facts }
    {
        let layout = facts.layout;
        let least = facts.least_edition();
        let [w0, w1] = facts.width.to_le_bytes();
        let [h0, h1] = facts.height.to_le_bytes();
        let [i0, i1, i2, i3, i4, i5, i6, i7] = facts.item.to_le_bytes();
        let bytes = [
            least,
            edition,
            layout.model,
            layout.primaries,
            layout.range,
            layout.depth,
            layout.bytes,
            layout.sampling,
            layout.offset0,
            layout.offset1,
            layout.offset2,
            0,
            w0,
            w1,
            h0,
            h1,
            i0,
            i1,
            i2,
            i3,
            i4,
            i5,
            i6,
            i7,
            facts.access,
            0,
            0,
            0,
            0,
            0,
            0,
            0,
        ];
        Card { bytes }
    }
}
