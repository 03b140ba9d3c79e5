// Text stored in an output: pieces one after the other, and numbers as decimal digits.
#![tactic(auto)]

ghost use Rattle.std.specs.Prelude.{◌≡◌, [], ◌∷◌, length, ◌+◌, ◌%◌};
ghost use Rattle.text_writer.specs.Decimal.{digit, decimal};
ghost use Rattle.text_writer.specs.Put.{Wrote};

// An output, and the index at which the next piece goes into it.
#[derive(Drop)]
pub struct TextWriter<'a> {
    pub out: &'a mut [u8],
    pub at: usize,
}

impl<'a> TextWriter<'a> {
    // Begins at the output's front.
    pub fn new(out: &'a mut [u8]) -> TextWriter<'a>
        ensures lent { result.out.ghost_name ≡ out.entry.ghost_name }
        ensures same { result.out.now ≡ out.old }
        ensures front { result.at ≡ 0 }
    {
        TextWriter { out, at: 0 }
    }

    // Stores a piece, and goes on behind it. What would lie behind the output's end is left out, and the next piece then goes to
    // the end.
    pub fn put(&mut self, piece: &[u8])
        ensures { Wrote piece.now self.old self.new }
    {
        let at = self.at;
        let end = at.saturating_add(piece.len()).min(self.out.len());
        if at < end {
            let length = end - at;
            self.out[at..end].copy_from_slice(&piece[..length]);
        }
        self.at = end;
    }

    // Stores one byte, as a piece.
    pub fn put_byte(&mut self, byte: u8)
        ensures { Wrote (byte ∷ []) self.old self.new }
    {
        self.put(&[byte]);
    }

    // Stores the last digit of a number.
    fn put_digit(&mut self, n: u64)
        ensures { Wrote (digit (n % 10) ∷ []) self.old self.new }
    {
        self.put_byte(b'0' + (n % 10) as u8);
    }

    // Stores all digits of a number, as a piece. It calls itself for all but the last digit, at most 20 deep.
    pub fn put_number(&mut self, n: u64)
        ensures { Wrote (decimal n) self.old self.new }
    {
        if 10 <= n {
            self.put_number(n / 10);
        }
        self.put_digit(n);
    }
}

// How many digits a number has. It calls itself for all but the last digit, at most 20 deep.
pub fn count(n: u64) -> usize
    ensures answer { result ≡ length (decimal n) }
{
    if n < 10 {
        return 1;
    }
    count(n / 10) + 1
}
