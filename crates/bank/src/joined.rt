// A source joined to a bank.
ghost use Rattle.std.specs.Prelude.{◌≡◌};
ghost use Rattle.source.specs.Spans.{listed};
ghost use Rattle.uniform.specs.Streams.{HoldsSource};
ghost use Rattle.uniform.specs.Uniform.{uniform};
ghost use Rattle.bank.specs.Banks.{with_list};
ghost use Rattle.bank.specs.Joins.{lists_of};

use crate::{Bank, MOST_LISTS};
use common::format::Format;
use source::Source;
use uniform::UniformSourceIterator;

// A bank, and its last list where there is a number left for it.
#[derive(Drop)]
pub struct Joined<B, S> {
    bank: B,
    last: UniformSourceIterator<S>,
}

impl<B: Bank, S: Source> Joined<B, S> {
    // The source gets the next number, as its uniform stream in the bank's format. A seventeenth is never heard.
    pub fn new(bank: B, source: S) -> Joined<B, S>
        ensures answer { lists_of B.lists S.meaning result
            ≡ with_list (B.lists bank) (uniform (B.shape bank).channels.count (B.shape bank).rate.rate (listed (S.meaning source).spans)) }
        ensures below { result.bank ≡ bank }
    {
        let format = bank.format();
        Joined {
            bank,
            last: UniformSourceIterator::new(source, format),
        }
    }

    // Takes the source off again, with what was not drawn of it yet, and leaves the bank below.
    pub fn into_inner(self) -> (B, S)
        ensures bank { result.0 ≡ self.bank }
        ensures source { HoldsSource self.last.inner result.1 }
    {
        let Joined { bank, last } = self;
        (bank, last.into_inner())
    }
}

impl<B: Bank, S: Source> Bank for Joined<B, S> {
    ghost lists = { λ j. lists_of B.lists S.meaning j };

    ghost shape = { λ j. B.shape j.bank };

    fn format(&self) -> Format {
        self.bank.format()
    }

    fn count(&self) -> usize {
        let n = self.bank.count();
        if n < MOST_LISTS { n + 1 } else { n }
    }

    fn draw(&mut self, i: usize) -> Option<f32> {
        let n = self.bank.count();
        if i == n && n < MOST_LISTS {
            self.last.next()
        } else {
            self.bank.draw(i)
        }
    }
}
