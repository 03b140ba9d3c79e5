// A packed line of points or groups decoded to floats, three a point in channel order, and one point (document 01, "Codes and
// floats").
#![tactic(auto)]

ghost use Rattle.std.specs.Prelude.{◌≡◌, length};
ghost use Rattle.line_values.specs.Decode.{decode_answer, decode_output};
ghost use Rattle.decoding.specs.Point.{decode_point};

use layout::Layout;
use line::Point;
use refusal::Refusal;

// Decodes a line of points or groups to values, three a point. Refused: 9, then 13.
pub fn decode_line(layout: Layout, packed: &[u8], out: &mut [f32]) -> Result<usize, Refusal>
    ensures answer { result ≡ decode_answer layout (length packed.now) (length out.old) }
    ensures memory { out.new ≡ decode_output layout packed.now out.old }
{
    let groups = layout.grouped();
    if groups {
        group_decoding::decode_groups(layout, packed, out)
    } else {
        point_decoding::decode_points(layout, packed, out)
    }
}

// Decodes one point, as a line of one point is; a group has no single point. Refused: 9, then 13.
pub fn decode_point(layout: Layout, bytes: &[u8]) -> Result<Point, Refusal>
    ensures { result ≡ decode_point layout bytes.now }
{
    if layout.grouped() {
        return Err(Refusal::Outside);
    }
    let mut values = [0.0, 0.0, 0.0];
    point_decoding::decode_points(layout, bytes, &mut values)?;
    let [channel0, channel1, channel2] = values;
    Ok(Point {
        channel0,
        channel1,
        channel2,
    })
}
