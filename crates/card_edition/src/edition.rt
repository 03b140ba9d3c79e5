// Editions of the card, and what each has.
ghost use Rattle.std.specs.Prelude.{◌≡◌};
ghost use Rattle.card_edition.specs.Edition.{edition_known, has_access};

// The newest edition. specs/Edition.antt has the same.
pub const NEWEST: u8 = 4;

// Whether there is such an edition.
pub fn known(edition: u8) -> bool
    ensures { result ≡ edition_known edition }
{
    (1 <= edition) & (edition <= NEWEST)
}

// Whether an edition knows of access.
pub fn has_access(edition: u8) -> bool
    ensures { result ≡ has_access edition }
{
    2 <= edition
}
