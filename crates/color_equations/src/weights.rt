// The weights of red and blue by primaries (document 01, "Layout").
ghost use Rattle.std.specs.Prelude.{◌≡◌};
ghost use Rattle.color_equations.specs.inner.Known.{known_weights};

// KR and KB in ten-thousandths.
#[derive(Clone, Copy)]
pub struct Weights {
    pub red: u16,
    pub blue: u16,
}

// BT.709, BT.601 EBU, BT.601 SMPTE, BT.2020.
const ROWS: [Weights; 4] = [
    Weights {
        red: 2126,
        blue: 722,
    },
    Weights {
        red: 2990,
        blue: 1140,
    },
    Weights {
        red: 2990,
        blue: 1140,
    },
    Weights {
        red: 2627,
        blue: 593,
    },
];

impl Weights {
    // The row of primaries 1 to 4.
    pub fn of(primaries: u8) -> Option<Weights>
        ensures { result ≡ known_weights primaries }
    {
        if !parameters::primaries_known(primaries) {
            return None;
        }
        Some(ROWS[(primaries - 1) as usize])
    }
}
