// R'G'B' made full range, code by code.
ghost use Rattle.std.specs.Prelude.{◌≡◌};
ghost use Rattle.full_rgb.specs.inner.Way.{narrow_stretch, no_stretch, stretched_by, each_by};

use parameters::Depth;

// A code c becomes c + (times c + plus) / 1168 - less, from 0 to the top. m / (219 s) is 85/73, 341/292 or 1365/1168, so over 1168
// at every depth: the divisor is a constant, and the compiler multiplies where it would divide.
#[derive(Clone, Copy)]
pub struct Stretch {
    pub times: u16,
    pub plus: u16,
    pub less: u16,
    pub top: u16,
}

impl Stretch {
    // Narrow range: m (c - 16 s) / (219 s) and a half more, its whole part.
    pub fn of_narrow(depth: Depth) -> Stretch
        ensures { result ≡ narrow_stretch depth }
    {
        match depth {
            Depth::Eight => Stretch {
                times: 192,
                plus: 1016,
                less: 19,
                top: 255,
            },
            Depth::Ten => Stretch {
                times: 196,
                plus: 888,
                less: 75,
                top: 1023,
            },
            Depth::Twelve => Stretch {
                times: 197,
                plus: 376,
                less: 299,
                top: 4095,
            },
        }
    }

    // Full range: as it is.
    pub fn of_full(depth: Depth) -> Stretch
        ensures { result ≡ no_stretch depth }
    {
        Stretch {
            times: 0,
            plus: 0,
            less: 0,
            top: depth.top(),
        }
    }
}

fn stretched(s: Stretch, code: u16) -> u16
    ensures { result ≡ stretched_by s code }
{
    let more = (s.times as u32 * code as u32 + s.plus as u32) / 1168;
    let above = (code as u32 + more).saturating_sub(s.less as u32);
    above.min(s.top as u32) as u16
}

// Every code of a line.
pub(crate) fn each(stretch: Stretch, codes: &[u16], out: &mut [u16])
    ensures { out.new ≡ each_by stretch codes.now out.old }
{
    let n = codes.len();
    if !((n % 3 == 0) & (out.len() == n)) {
        return;
    }
    for (i, made) in out.iter_mut().enumerate() {
        *made = stretched(stretch, codes[i]);
    }
}
