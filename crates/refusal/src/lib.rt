// The refusals and their numbers (document 01, "Numbers on the refusal slip").
#![tactic(auto)]

ghost use Rattle.std.specs.Prelude.{◌≡◌};
ghost use Rattle.refusal.specs.Refusal.{number_of};

// The rows of the refusal slip, each with its number.
#[derive(Clone, Copy, Debug, PartialEq, Eq, Hash)]
pub enum Refusal {
    // A descriptor is not of 76 bytes, a card not of 32, or a stack not of whole cards or of over 1,024.
    WrongLength = 1,

    // Bytes 0 to 11 of a descriptor are wrong.
    WrongHeader = 2,

    // Bytes 12 to 15 of a descriptor are wrong.
    WrongColor = 3,

    // Bytes 16 to 27 of a descriptor are wrong.
    WrongPlanes = 4,

    // A sample's offset, length, channel, position or order is wrong.
    WrongSample = 5,

    // The lower and upper numbers of the samples state no one range.
    NoRange = 6,

    // The edition asked is not 1 to 4.
    UnknownEdition = 7,

    // The card's byte 0 is above the edition asked.
    LaterEdition = 8,

    // A card field, layout, range, depth, channel or weights row is outside the paper.
    Outside = 9,

    // The access is above 2 in a card written at 2 or later, and not later than it is read.
    UnknownAccess = 10,

    // The edition that is asked to write lacks the layout or the access.
    Unwritable = 11,

    // A float is not a number.
    NotANumber = 12,

    // A line is not of whole points or groups or of over 4,096 points, or the bytes of a field or of a picture, or an output, are
    // not exactly as many as needed.
    WrongLineOrOutput = 13,

    // A code is above 2^n - 1.
    CodeTooHigh = 14,

    // No card that the edition reads has the item.
    NoItem = 15,

    // An odd width, or an odd count of whole points to encode or pack, where two points make a group.
    OddCount = 16,

    // A card is not open, so that no picture file is made of it.
    NotOpen = 17,

    // A picture file does not begin with a header of our form, or has a code above the largest that its header tells.
    WrongPicture = 18,
}

impl Refusal {
    // Its number on the slip.
    pub fn number(self) -> u8
        ensures { result ≡ number_of self }
    {
        self as u8
    }
}
