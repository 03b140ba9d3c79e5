// Little-endian numbers in the bytes of a descriptor. Two functions and not one for any width, since std has a method for each type
// and no trait over them.
ghost use Rattle.std.specs.Prelude.{◌≡◌, length, ◌+◌, ◌≤◌};
ghost use Rattle.lists.specs.Bytes.{number_at};

// The number in two bytes from place i on.
pub(crate) fn number2(bytes: &[u8], i: usize) -> u16
    requires { i + 2 ≤ length bytes.now }
    ensures { result ≡ number_at bytes.now i 2 }
{
    u16::from_le_bytes([bytes[i], bytes[i + 1]])
}

// The number in four.
pub(crate) fn number4(bytes: &[u8], i: usize) -> u32
    requires { i + 4 ≤ length bytes.now }
    ensures { result ≡ number_at bytes.now i 4 }
{
    u32::from_le_bytes([bytes[i], bytes[i + 1], bytes[i + 2], bytes[i + 3]])
}
