// The bank with a format and no list.
ghost use Rattle.std.specs.Prelude.{◌≡◌, []};

use crate::Bank;
use common::format::Format;

#[derive(Clone, Copy, Debug, PartialEq, Eq)]
pub struct BareBank {
    format: Format,
}

impl BareBank {
    pub fn new(format: Format) -> BareBank
        ensures answer { result.format ≡ format }
    {
        BareBank { format }
    }
}

impl Bank for BareBank {
    ghost lists = { λ _. [] };

    ghost shape = { λ b. b.format };

    fn format(&self) -> Format {
        self.format
    }

    fn count(&self) -> usize {
        0
    }

    fn draw(&mut self, _i: usize) -> Option<f32> {
        None
    }
}
