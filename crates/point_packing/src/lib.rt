// A line of codes, three a point in channel order, packed to points of their own (document 01, "Layout").
#![tactic(auto)]

ghost use Rattle.std.specs.Prelude.{◌≡◌, length};
ghost use Rattle.line.specs.Answer.{pack_answer, pack_output, of_points};

use layout::Layout;
use parameters::Depth;
use refusal::Refusal;

mod pack;
mod runs;
mod store;

pub use runs::{store_counted, store_one};

// Packs a line of codes to points of their own; unused bits are zero. No byte is written before every code is seen to fit. A
// layout of groups is refused as one that the paper has not. Refused: 9, then 13, then 14.
pub fn pack_points(layout: Layout, codes: &[u16], out: &mut [u8]) -> Result<usize, Refusal>
    ensures answer { result ≡ of_points layout (pack_answer layout codes.now (length out.old)) (Err Refusal.Outside) }
    ensures memory { out.new ≡ of_points layout (pack_output layout codes.now out.old) out.old }
{
    if !layout.valid_points() {
        return Err(Refusal::Outside);
    }
    let Some(depth) = Depth::of(layout.depth) else {
        return Err(Refusal::Outside);
    };
    let size = layout.bytes as usize;
    let n = codes.len() / 3;
    if !((codes.len() % 3 == 0) & (n <= line::MOST_POINTS) & (out.len() == size * n)) {
        return Err(Refusal::WrongLineOrOutput);
    }
    if !line::all_within(codes, depth.top()) {
        return Err(Refusal::CodeTooHigh);
    }
    pack::points(layout, codes, out, n);
    Ok(n)
}
