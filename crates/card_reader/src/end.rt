// The end of a card, bytes 24 to 31, by the edition that wrote the card and the one that reads it.
ghost use Rattle.std.specs.Prelude.{◌≡◌};
ghost use Rattle.card_reader.specs.Reading.{end_wrong};

use crate::number::number8;
use card_edition::access::table_holds;
use card_edition::edition::has_access;
use card_table::Card;

// Whether bytes 24 to 31 are not zero where they must be: all of them, or all but the first. They are one number, that the
// compiler loads at once.
#[tactic(auto, unfolding(crate::specs::Reading::end_wrong))]
pub(crate) fn end_wrong(bytes: &[u8; Card::SIZE], edition: u8) -> bool
    ensures { result ≡ end_wrong bytes.now edition }
{
    let writer = bytes[1];
    let end = number8(bytes, 24);
    (!has_access(writer) & (end != 0)) | (table_holds(writer, edition) & (end / 256 != 0))
}
