// The numbers of access, and what an edition takes byte 24 of a card for. specs/Access.antt has the same numbers. They are
// numbers and no enum, as a caller's facts and byte 24 may hold any: C's function takes any, and 9 or 10 tells of others.
ghost use Rattle.std.specs.Prelude.{◌≡◌};
ghost use Rattle.card_edition.specs.Access.{access_of, access_unknown, table_holds};

use crate::edition::has_access;

pub const CLOSED: u8 = 0;

pub const COMMUNITY: u8 = 1;

pub const OPEN: u8 = 2;

// The access that is shown of byte 24.
#[tactic(auto, unfolding(crate::specs::Access::access_of))]
pub fn shown(writer: u8, access: u8, edition: u8) -> u8
    ensures { result ≡ access_of writer access edition }
{
    if has_access(writer) & has_access(edition) & (access <= OPEN) {
        access
    } else {
        CLOSED
    }
}

// Whether the reader knows all that the writer could mean by bytes 24 to 31.
pub fn table_holds(writer: u8, edition: u8) -> bool
    ensures { result ≡ table_holds writer edition }
{
    has_access(writer) & (writer <= edition)
}

// Whether byte 24 is no access, where it must be one.
#[tactic(auto, unfolding(crate::specs::Access::access_unknown))]
pub fn unknown(writer: u8, access: u8, edition: u8) -> bool
    ensures { result ≡ access_unknown writer access edition }
{
    table_holds(writer, edition) & !(access <= OPEN)
}
