// Lines of floats, three a point in channel order, encoded to points or groups, and one point (document 01, "Codes and
// floats").
#![tactic(auto)]

ghost use Rattle.std.specs.Prelude.{◌≡◌, length};
ghost use Rattle.line_values.specs.Encode.{encode_answer, encode_output, encode_point_answer, encode_point_output};

use layout::Layout;
use line::Point;
use refusal::Refusal;

// Encodes a line of values, three a point, to points or groups, and counts the values that were cut. Refused: 9, then 16, then
// 13, then 12.
pub fn encode_line(layout: Layout, values: &[f32], out: &mut [u8]) -> Result<(usize, u32), Refusal>
    ensures answer { result ≡ encode_answer layout values.now (length out.old) }
    ensures memory { out.new ≡ encode_output layout values.now out.old }
{
    let groups = layout.grouped();
    if groups {
        group_encoding::encode_groups(layout, values, out)
    } else {
        point_encoding::encode_points(layout, values, out)
    }
}

// Encodes one point, as a line of one point is; a group has no single point. Refused: 9, then 13, then 12.
pub fn encode_point(layout: Layout, point: Point, out: &mut [u8]) -> Result<(usize, u32), Refusal>
    ensures answer { result ≡ encode_point_answer layout point (length out.old) }
    ensures memory { out.new ≡ encode_point_output layout point out.old }
{
    if layout.grouped() {
        Err(Refusal::Outside)
    } else {
        let values = [point.channel0, point.channel1, point.channel2];
        point_encoding::encode_points(layout, &values, out)
    }
}
