// The tables of G' out of narrow range: the factors that the terms of its equation have in common are taken out, so that its
// sums and its divisor are no larger than the f64 division allows.
ghost use Rattle.std.specs.Prelude.{◌≡◌, true};
ghost use Rattle.parameters.specs.Parameters.{primaries_known};
ghost use Rattle.color_numbers.specs.inner.Green.{green_terms, ratio_of};

use parameters::{Depth, Range};

// G' = (luma (y - black) - red (cr - neutral) - blue (cb - neutral)) / (2 half * 21 s), in lowest terms. By the weights,
// luma : red : blue : 2 half * 21 are 224 KG : 2 * 219 KR (1 - KR) : 2 * 219 KB (1 - KB) : 224 * 219 KG.
#[derive(Clone, Copy)]
pub struct GreenTerms {
    pub luma: u64,
    pub red: u64,
    pub blue: u64,
    pub half: u64,
}

// The row of primaries 1 to 4. (A match is cheaper than an array, which every call would build anew.)
pub(crate) fn green_terms(primaries: u8) -> GreenTerms
    requires { primaries_known primaries ≡ true }
    ensures { result ≡ green_terms primaries }
{
    match primaries {
        // BT.709
        1 => GreenTerms {
            luma: 667520000,
            red: 305507263,
            blue: 122251567,
            half: 3480640000,
        },
        // BT.601 EBU
        2 => GreenTerms {
            luma: 65744000,
            red: 45902181,
            blue: 22119876,
            half: 342808000,
        },
        // BT.601 SMPTE
        3 => GreenTerms {
            luma: 65744000,
            red: 45902181,
            blue: 22119876,
            half: 342808000,
        },
        // BT.2020
        _ => GreenTerms {
            luma: 2531200000,
            red: 1413927583,
            blue: 407219623,
            half: 13198400000,
        },
    }
}

// The span of the codes that come out, over 21 s, in lowest terms: span / whole.
#[derive(Clone, Copy)]
pub struct Ratio {
    pub span: u64,
    pub whole: u64,
}

pub fn ratio_of(range: Range, depth: Depth) -> Ratio
    ensures { result ≡ ratio_of range depth }
{
    match range {
        Range::Narrow => Ratio { span: 73, whole: 7 },
        Range::Full => match depth {
            Depth::Eight => Ratio { span: 85, whole: 7 },
            Depth::Ten => Ratio {
                span: 341,
                whole: 28,
            },
            Depth::Twelve => Ratio {
                span: 195,
                whole: 16,
            },
        },
        Range::LegacyFull => Ratio {
            span: 256,
            whole: 21,
        },
    }
}
