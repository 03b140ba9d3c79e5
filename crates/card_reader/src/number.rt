// Little-endian numbers in the bytes of a card.
ghost use Rattle.std.specs.Prelude.{◌≡◌, length, ◌+◌, ◌≤◌};
ghost use Rattle.lists.specs.Bytes.{number_at};

// The number in two bytes from place i on.
pub(crate) fn number2(bytes: &[u8], i: usize) -> u16
    requires { i + 2 ≤ length bytes.now }
    ensures { result ≡ number_at bytes.now i 2 }
{
    u16::from_le_bytes([bytes[i], bytes[i + 1]])
}

// The number in eight.
pub(crate) fn number8(bytes: &[u8], i: usize) -> u64
    requires { i + 8 ≤ length bytes.now }
    ensures { result ≡ number_at bytes.now i 8 }
{
    u64::from_le_bytes([
        bytes[i],
        bytes[i + 1],
        bytes[i + 2],
        bytes[i + 3],
        bytes[i + 4],
        bytes[i + 5],
        bytes[i + 6],
        bytes[i + 7],
    ])
}
