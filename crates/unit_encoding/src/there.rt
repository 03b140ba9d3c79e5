// Whether a unit is there.
ghost use Rattle.std.specs.Prelude.{◌≡◌, ◌+◌, ltb};

// Unit j of those from `start` on, of `count` units.
#[inline(always)]
pub fn is_there(count: usize, start: usize, j: usize) -> bool
    ensures { result ≡ ltb (start + j) count }
{
    if start > count {
        return false;
    }
    j < count - start
}
