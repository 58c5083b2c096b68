// A box of a method is a method.
use crate::{Call, Method};

impl Method for Box<dyn Method + Send> {
    ghost keep = { λ b. (Method-box b).keep b.value };

    ghost heard = { λ b. (Method-box b).heard b.value };

    fn reset(&mut self) {
        (**self).reset()
    }

    fn invoke(&mut self, call: &Call<'_>) {
        (**self).invoke(call)
    }

    fn told(&self) -> Option<u32> {
        (**self).told()
    }

    fn byte(&self, k: u32) -> u8 {
        (**self).byte(k)
    }
}
