// How a packed line is gone through.
ghost use Rattle.std.specs.Prelude.{◌≡◌};

use layout::Layout;

// From one point of a packed line to the next: the bytes of a point. They are added up from two halves, which the compiler does
// not put together again. Of a step that is a bare number it would guess that it is 1, and do only such lines several
// points at a time.
pub fn step(layout: Layout) -> usize
    ensures { result ≡ layout.bytes }
{
    let bytes = layout.bytes as usize;
    bytes / 2 + (bytes + 1) / 2
}
