// Bytes 0 to 23 of a card, which every edition reads.
ghost use Rattle.std.specs.Prelude.{◌≡◌};
ghost use Rattle.card_reader.specs.Reading.{layout_in, facts_in, front_right};

use crate::number::{number2, number8};
use card_edition::access;
use card_table::{Card, Facts};
use layout::Layout;

// The layout that the bytes hold.
#[tactic(auto, unfolding(crate::specs::Reading::layout_in))]
fn layout_in(bytes: &[u8; Card::SIZE]) -> Layout
    ensures { result ≡ layout_in bytes.now }
{
    Layout {
        model: bytes[2],
        primaries: bytes[3],
        range: bytes[4],
        depth: bytes[5],
        bytes: bytes[6],
        offset0: bytes[8],
        offset1: bytes[9],
        offset2: bytes[10],
        sampling: bytes[7],
    }
}

// The facts that the bytes hold, with the access that the edition shows.
#[tactic(auto, unfolding(crate::specs::Reading::facts_in))]
pub(crate) fn facts_in(bytes: &[u8; Card::SIZE], edition: u8) -> Facts
    ensures { result ≡ facts_in bytes.now edition }
{
    Facts {
        layout: layout_in(bytes),
        width: number2(bytes, 12),
        height: number2(bytes, 14),
        item: number8(bytes, 16),
        access: access::shown(bytes[1], bytes[24], edition),
    }
}

// Whether bytes 0 to 23 are as the table has them, but for an odd width, where they hold these facts.
#[tactic(auto, unfolding(crate::specs::Reading::front_right))]
pub(crate) fn front_right(bytes: &[u8; Card::SIZE], facts: Facts) -> bool
    ensures { result ≡ front_right bytes.now facts }
{
    (bytes[0] == facts.least_edition()) & (bytes[0] <= bytes[1]) & facts.valid() & (bytes[11] == 0)
}
