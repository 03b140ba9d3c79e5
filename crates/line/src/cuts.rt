// The number of a line's cuts, as an answer has it.
ghost use Rattle.std.specs.Prelude.{◌≡◌};
ghost use Rattle.line.specs.inner.Cuts.{cuts_told};

// The most values of a line, and so the most that can be cut.
pub const MOST_VALUES: u64 = 12288;

// A number of cuts in 32 bits: at most as many as a line has values. (No line has more. But without that comparison the compiler
// adds the cuts up in 32 bits, beside codes that are worked out in 64, and that takes longer.)
pub fn cuts_told(cuts: u64) -> u32
    ensures { result ≡ cuts_told cuts }
{
    cuts.min(MOST_VALUES) as u32
}
