// The recorded kinds f32 and signed 16-bit.
ghost use Rattle.recorded.specs.Kinds.{of_i16};

use crate::Recorded;

impl Recorded for f32 {
    ghost stands = { λ x. x };

    fn sample(self) -> f32 {
        self
    }
}

impl Recorded for i16 {
    ghost stands = { of_i16 };

    fn sample(self) -> f32 {
        let steps = self as f32;
        steps / 32768.0
    }
}
