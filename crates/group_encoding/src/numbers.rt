// Whether a line of groups is of numbers, where it is looked at.
ghost use Rattle.std.specs.Prelude.{◌≡◌, not, ◌&&◌, ◌+◌, ◌*◌, ◌≤◌, length, get_or};
ghost use Rattle.std.specs.Float.{nan};
ghost use Rattle.std.specs.Float.Ieee.{is_nan};
ghost use Rattle.line.specs.inner.Groups.{group_shared};
ghost use Rattle.line_values.specs.Encode.{all_numbers};

fn is_number(value: f32) -> bool
    ensures { result ≡ not (is_nan value) }
{
    value == value
}

// Whether the values of group i are numbers, but for the second point's colour.
fn group_numbers(values: &[f32], i: usize) -> bool
    requires { 6 * i + 6 ≤ length values.now }
    ensures { result ≡ not (is_nan (get_or values.now (6 * i) nan)) && not (is_nan (get_or values.now (6 * i + 1) nan)) && not (is_nan (get_or values.now (6 * i + 2) nan)) && not (is_nan (get_or values.now (6 * i + 3) nan)) }
{
    let at = 6 * i;
    is_number(values[at])
        & is_number(values[at + 1])
        & is_number(values[at + 2])
        & is_number(values[at + 3])
}

// Whether those of n groups are. There is no early exit: it costs more than it spares.
pub(crate) fn all_numbers(values: &[f32], n: usize) -> bool
    requires { length values.now ≡ 6 * n }
    ensures { result ≡ all_numbers (group_shared nan values.now) }
{
    let mut ok = true;
    for i in 0..n {
        ok = ok & group_numbers(values, i);
    }
    ok
}
