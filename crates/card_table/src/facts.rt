// The facts that a card holds.
ghost use Rattle.std.specs.Prelude.{◌≡◌};
ghost use Rattle.card_table.specs.Facts.{side_known, facts_valid, odd_width, least_edition};

use crate::card::Card;
use card_edition::access;
use layout::Layout;

// Any numbers make facts; `valid` says whether all are the paper's.
#[derive(Clone, Copy)]
pub struct Facts {
    pub layout: Layout,
    pub width: u16,
    pub height: u16,
    pub item: u64,
    pub access: u8,
}

// Whether a picture may be so wide, or so high.
fn side_known(side: u16) -> bool
    ensures { result ≡ side_known side }
{
    (1 <= side) & (side <= Card::LARGEST_WIDTH)
}

impl Facts {
    // Whether no field is outside the paper. (An item is below 2^64 by its type.)
    #[tactic(auto, unfolding(crate::specs::Facts::facts_valid))]
    pub fn valid(self) -> bool
        ensures { result ≡ facts_valid self }
    {
        self.layout.valid()
            & side_known(self.width)
            & side_known(self.height)
            & (1 <= self.item)
            & (self.access <= access::OPEN)
    }

    // Whether the width is odd where two points of a line make a group.
    pub fn odd_width(self) -> bool
        ensures { result ≡ odd_width self }
    {
        self.layout.grouped() & (self.width % 2 == 1)
    }

    // The least edition that can read a card of these facts: byte 0. Groups need edition 4, range 3 needs 3, and
    // 12 bits need 2.
    #[tactic(auto, unfolding(crate::specs::Facts::least_edition))]
    pub fn least_edition(self) -> u8
        ensures { result ≡ least_edition self }
    {
        let layout = self.layout;
        let range = layout.range;
        let depth = layout.depth;
        if layout.grouped() {
            4
        } else if range == 3 {
            3
        } else if depth == 12 {
            2
        } else {
            1
        }
    }
}
