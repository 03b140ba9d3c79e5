// The bits of a code: n of 8, 10 or 12.
ghost use Rattle.std.specs.Prelude.{◌≡◌};
ghost use Rattle.parameters.specs.Parameters.{depth_known, known_depth, bits_of, step_of, top_of};

#[derive(Clone, Copy)]
pub enum Depth {
    Eight,
    Ten,
    Twelve,
}

impl Depth {
    // 8, 10 or 12 bits.
    pub fn known(number: u8) -> bool
        ensures { result ≡ depth_known number }
    {
        (number == 8) | (number == 10) | (number == 12)
    }

    // The depth of a number, or that it has none: not TryFrom, whose error could say no more.
    pub fn of(number: u8) -> Option<Depth>
        ensures { result ≡ known_depth number }
    {
        match number {
            8 => Some(Depth::Eight),
            10 => Some(Depth::Ten),
            12 => Some(Depth::Twelve),
            _ => None,
        }
    }

    // The paper's s = 2^(n-8).
    pub fn step(self) -> u16
        ensures { result ≡ step_of (bits_of self) }
    {
        match self {
            Depth::Eight => 1,
            Depth::Ten => 4,
            Depth::Twelve => 16,
        }
    }

    // The highest code, 2^n - 1.
    pub fn top(self) -> u16
        ensures { result ≡ top_of (bits_of self) }
    {
        match self {
            Depth::Eight => 255,
            Depth::Ten => 1023,
            Depth::Twelve => 4095,
        }
    }
}
