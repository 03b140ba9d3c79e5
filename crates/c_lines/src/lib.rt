// The C interface of lines and points: include/imurraqi.h declares the same functions.
#![tactic(auto)]

ghost use Rattle.std.specs.Prelude.{◌≡◌, length};
ghost use Rattle.line.specs.Answer.{unpack_answer, unpack_output, pack_answer, pack_output};
ghost use Rattle.line_values.specs.Encode.{encode_answer, encode_output, encode_point_answer, encode_point_output};
ghost use Rattle.line_values.specs.Decode.{decode_answer, decode_output};
ghost use Rattle.decoding.specs.Point.{decode_point};
ghost use Rattle.c_types.specs.Layouts.{layout_of};
ghost use Rattle.c_types.specs.Numbers.{line_number, clamped_number, cuts_after};
ghost use Rattle.c_lines.specs.Points.{point_of, decoded_number, decoded_values};

use c_types::{clamped_number, layout_of, line_number, refused};
use scanline::Point;

// The count of points of a line of one.
const ONE_POINT: i64 = 1;

// Decodes one point to three values. Answers 1.
#[unsafe(no_mangle)]
pub extern "C" fn imurraqi_decode_point(layout: &[u8; 9], bytes: &[u8], point: &mut [f32; 3]) -> i64
    ensures answer { result ≡ decoded_number (decode_point (layout_of layout.now) bytes.now) }
    ensures memory { point.new ≡ decoded_values (decode_point (layout_of layout.now) bytes.now) point.old }
{
    match scanline::decode_point(layout_of(layout), bytes) {
        Ok(decoded) => {
            *point = [decoded.channel0, decoded.channel1, decoded.channel2];
            ONE_POINT
        }
        Err(refusal) => refused(refusal.number()),
    }
}

// Decodes a line of points or groups to values, three a point. Answers the count of points.
#[unsafe(no_mangle)]
pub extern "C" fn imurraqi_decode_line(layout: &[u8; 9], packed: &[u8], out: &mut [f32]) -> i64
    ensures answer { result ≡ line_number (decode_answer (layout_of layout.now) (length packed.now) (length out.old)) }
    ensures memory { out.new ≡ decode_output (layout_of layout.now) packed.now out.old }
{
    line_number(scanline::decode_line(layout_of(layout), packed, out))
}

// Encodes one point of three values. Answers 1, and behind the last pointer how many of them were cut.
#[unsafe(no_mangle)]
pub extern "C" fn imurraqi_encode_point(
    layout: &[u8; 9],
    channel0: f32,
    channel1: f32,
    channel2: f32,
    out: &mut [u8],
    cuts: &mut u32,
) -> i64
    ensures answer { result ≡ clamped_number (encode_point_answer (layout_of layout.now) (point_of channel0 channel1 channel2) (length out.old)) }
    ensures memory { out.new ≡ encode_point_output (layout_of layout.now) (point_of channel0 channel1 channel2) out.old }
    ensures cuts { cuts.new ≡ cuts_after (encode_point_answer (layout_of layout.now) (point_of channel0 channel1 channel2) (length out.old)) cuts.old }
{
    let point = Point {
        channel0,
        channel1,
        channel2,
    };
    clamped_number(scanline::encode_point(layout_of(layout), point, out), cuts)
}

// Encodes a line of values, three a point. Answers the count of points, and behind the last pointer how many values were cut.
#[unsafe(no_mangle)]
pub extern "C" fn imurraqi_encode_line(
    layout: &[u8; 9],
    values: &[f32],
    out: &mut [u8],
    cuts: &mut u32,
) -> i64
    ensures answer { result ≡ clamped_number (encode_answer (layout_of layout.now) values.now (length out.old)) }
    ensures memory { out.new ≡ encode_output (layout_of layout.now) values.now out.old }
    ensures cuts { cuts.new ≡ cuts_after (encode_answer (layout_of layout.now) values.now (length out.old)) cuts.old }
{
    clamped_number(scanline::encode_line(layout_of(layout), values, out), cuts)
}

// The codes of a line of points or groups, three a point. Answers the count of points.
#[unsafe(no_mangle)]
pub extern "C" fn imurraqi_unpack_line(layout: &[u8; 9], packed: &[u8], out: &mut [u16]) -> i64
    ensures answer { result ≡ line_number (unpack_answer (layout_of layout.now) (length packed.now) (length out.old)) }
    ensures memory { out.new ≡ unpack_output (layout_of layout.now) packed.now out.old }
{
    line_number(scanline::unpack_line(layout_of(layout), packed, out))
}

// Packs a line of codes, three a point. Answers the count of points.
#[unsafe(no_mangle)]
pub extern "C" fn imurraqi_pack_line(layout: &[u8; 9], codes: &[u16], out: &mut [u8]) -> i64
    ensures answer { result ≡ line_number (pack_answer (layout_of layout.now) codes.now (length out.old)) }
    ensures memory { out.new ≡ pack_output (layout_of layout.now) codes.now out.old }
{
    line_number(scanline::pack_line(layout_of(layout), codes, out))
}
