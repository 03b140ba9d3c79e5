// What the functions of the C interface share: how C hands over a layout and the facts of a card, and how it gets a refusal or
// a line's answer as a number (include/imurraqi.h).
#![tactic(auto)]

ghost use Rattle.std.specs.Prelude.{◌≡◌, cond, pos, neg_ℤ};
ghost use Rattle.c_types.specs.Layouts.{layout_of, layout_bytes, facts_of};
ghost use Rattle.c_types.specs.Numbers.{written_number, line_number, without_cuts, clamped_number, cuts_after, counted};

use card_table::Facts;
use layout::Layout;
use line::MOST_POINTS;
use refusal::Refusal;

// A refusal's number, as C gets it: minus the number.
pub fn refused(number: u8) -> i64
    ensures { result ≡ neg_ℤ (pos number) }
{
    -(number as i64)
}

// What answers nothing else: 0, or its refusal.
pub fn written_number(answer: Result<(), Refusal>) -> i64
    ensures { result ≡ written_number answer }
{
    match answer {
        Ok(()) => 0,
        Err(refusal) => refused(refusal.number()),
    }
}

// A line's answer: its count of points, or its refusal. (0 for more points than a line can have: a count that no function on
// lines answers, and that need not fit an i64.)
pub fn line_number(answer: Result<usize, Refusal>) -> i64
    ensures { result ≡ cond (counted answer) (line_number answer) (pos 0) }
{
    match answer {
        Ok(count) if count <= MOST_POINTS => count as i64,
        Ok(_) => 0,
        Err(refusal) => refused(refusal.number()),
    }
}

// The same of an answer with cuts, whose number of cuts goes behind the pointer; a refusal leaves it as it was.
pub fn clamped_number(answer: Result<(usize, u32), Refusal>, cuts: &mut u32) -> i64
    ensures answer { result ≡ cond (counted (without_cuts answer)) (clamped_number answer) (pos 0) }
    ensures memory { cuts.new ≡ cuts_after answer cuts.old }
{
    match answer {
        Ok((count, cut)) => {
            *cuts = cut;
            line_number(Ok(count))
        }
        Err(refusal) => line_number(Err(refusal)),
    }
}

// The layout of nine bytes, the last of which is the sampling.
pub fn layout_of(bytes: &[u8; 9]) -> Layout
    ensures { result ≡ layout_of bytes.now }
{
    Layout {
        model: bytes[0],
        primaries: bytes[1],
        range: bytes[2],
        depth: bytes[3],
        bytes: bytes[4],
        offset0: bytes[5],
        offset1: bytes[6],
        offset2: bytes[7],
        sampling: bytes[8],
    }
}

// The nine bytes of a layout.
pub fn bytes_of(layout: Layout) -> [u8; 9]
    ensures { result ≡ layout_bytes layout }
{
    [
        layout.model,
        layout.primaries,
        layout.range,
        layout.depth,
        layout.bytes,
        layout.offset0,
        layout.offset1,
        layout.offset2,
        layout.sampling,
    ]
}

// The facts of a layout's bytes and four numbers.
pub fn facts_of(layout: &[u8; 9], width: u16, height: u16, item: u64, access: u8) -> Facts
    ensures { result ≡ facts_of layout.now width height item access }
{
    Facts {
        layout: layout_of(layout),
        width,
        height,
        item,
        access,
    }
}
