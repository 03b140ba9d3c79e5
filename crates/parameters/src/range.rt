// The range that the codes use of their bits.
ghost use Rattle.std.specs.Prelude.{◌≡◌};
ghost use Rattle.parameters.specs.Parameters.{range_number, range_known, known_range};

// Each with its number. `LegacyFull` is the full range of BT.2100-0 and JFIF: 2^n codes a unit, where `Full` has 2^n - 1.
#[derive(Clone, Copy)]
pub enum Range {
    Narrow = 1,
    Full = 2,
    LegacyFull = 3,
}

impl Range {
    // Range 1 is narrow, 2 is full, 3 is the older full range.
    pub fn known(number: u8) -> bool
        ensures { result ≡ range_known number }
    {
        (number == 1) | (number == 2) | (number == 3)
    }

    // The range of a number, or that it has none: not TryFrom, whose error could say no more.
    pub fn of(number: u8) -> Option<Range>
        ensures { result ≡ known_range number }
    {
        match number {
            1 => Some(Range::Narrow),
            2 => Some(Range::Full),
            3 => Some(Range::LegacyFull),
            _ => None,
        }
    }

    // Its number.
    pub fn number(self) -> u8
        ensures { result ≡ range_number self }
    {
        self as u8
    }
}
