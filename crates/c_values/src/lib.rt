// The C interface of one value: include/imurraqi.h declares the same functions.
#![tactic(auto)]

ghost use Rattle.std.specs.Prelude.{◌≡◌};
ghost use Rattle.quantization.specs.Answer.{dequantized, quantized};
ghost use Rattle.c_values.specs.Numbers.{dequantized_number, dequantized_value, quantized_number, quantized_cuts};

use c_types::refused;
use quantization::Dequantized;

// The float of a code. Answers 0 for a brightness, 1 for a difference.
#[unsafe(no_mangle)]
pub extern "C" fn imurraqi_dequantize(
    model: u8,
    range: u8,
    depth: u8,
    channel: u8,
    code: u16,
    value: &mut f32,
) -> i64
    ensures answer { result ≡ dequantized_number (dequantized model range depth channel code) }
    ensures memory { value.new ≡ dequantized_value (dequantized model range depth channel code) value.old }
{
    match quantization::dequantize(model, range, depth, channel, code) {
        Dequantized::Brightness(brightness) => {
            *value = brightness;
            0
        }
        Dequantized::Difference(difference) => {
            *value = difference;
            1
        }
        Dequantized::Refused(refusal) => refused(refusal.number()),
    }
}

// The code of a float. Behind `cuts` stands then whether the clamp cut it: 1, or 0.
#[unsafe(no_mangle)]
pub extern "C" fn imurraqi_quantize(
    model: u8,
    range: u8,
    depth: u8,
    channel: u8,
    value: f32,
    cuts: &mut u32,
) -> i64
    ensures answer { result ≡ quantized_number (quantized model range depth channel value) }
    ensures memory { cuts.new ≡ quantized_cuts (quantized model range depth channel value) cuts.old }
{
    match quantization::quantize(model, range, depth, channel, value) {
        Ok(clamped) => {
            *cuts = clamped.cut as u32;
            clamped.code as i64
        }
        Err(refusal) => refused(refusal.number()),
    }
}
