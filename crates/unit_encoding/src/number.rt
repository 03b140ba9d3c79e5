// A value of a line in f64, and its code.
ghost use Rattle.std.specs.Prelude.{◌≡◌};
ghost use Rattle.quantization.specs.Code.{code_of};
ghost use Rattle.scale.specs.declared.Scale.{Scale};
ghost use Rattle.float_scale.specs.inner.Floats.{float_scale, code_in, Fine};
ghost use Rattle.unit_encoding.specs.Number.{IsNumber};

use float_scale::FloatScale;
use fractions::Clamped;

#[derive(Clone, Copy)]
pub struct Number {
    pub value: f64,
}

impl Number {
    // The code on a scale, and whether the value was cut. Of a number that an f32 has, on a scale of the paper, it is the paper's.
    pub fn code(self, scale: FloatScale) -> Clamped
        ensures in_floats { result ≡ code_in scale self.value }
        ensures exact { (sc : Scale) → Fine sc → scale ≡ float_scale sc → IsNumber self.value → Some result ≡ code_of sc self.value }
    {
        scale.code(self.value)
    }
}
