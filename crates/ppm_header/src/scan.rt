// What stands in a text: a number.
ghost use Rattle.std.specs.Prelude.{◌≡◌, get_or, ◌+◌, ◌-◌, ◌*◌, ◌≤◌, ◌<◌};
ghost use Rattle.ppm_header.specs.Header.{is_digit, number_from};

// The byte at index `at`, and 0, which is no digit, behind the end.
fn byte_at(s: &[u8], at: usize) -> u8
    ensures { result ≡ get_or s.now at 0 }
{
    if at < s.len() { s[at] } else { 0 }
}

// Whether a byte is a digit.
fn is_digit(byte: u8) -> bool
    ensures { result ≡ is_digit byte }
{
    (b'0' <= byte) & (byte <= b'9')
}

// A number with one digit more.
fn appended(n: u16, digit: u8) -> u16
    requires { (n ≤ 999) × (48 ≤ digit) × (digit ≤ 57) }
    ensures { result ≡ 10 * n + (digit - 48) }
{
    10 * n + (digit - b'0') as u16
}

// The number of the digits from index `at` on, at most four of them.
pub(crate) fn number_from(s: &[u8], at: usize) -> u16
    requires { at < 1000 }
    ensures { result ≡ number_from s.now at }
{
    let mut n: u16 = 0;
    for i in 0..4 {
        let byte = byte_at(s, at + i);
        if !is_digit(byte) {
            return n;
        }
        n = appended(n, byte);
    }
    n
}
