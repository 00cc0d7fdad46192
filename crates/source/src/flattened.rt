// A source as a list of samples: its spans' samples joined.
ghost use Rattle.std.specs.Prelude.{◌≡◌};
ghost use Rattle.source.specs.Meanings.{samples_of, at_end};

use crate::{Samples, Source};

#[derive(Drop)]
pub struct Flattened<S> {
    input: S,
}

impl<S: Source> Flattened<S> {
    pub fn new(input: S) -> Flattened<S>
        ensures answer { result.input ≡ input }
    {
        Flattened { input }
    }

    pub fn into_inner(self) -> S
        ensures answer { result ≡ self.input }
    {
        let Flattened { input: inner } = self;
        inner
    }
}

impl<S: Source> Samples for Flattened<S> {
    ghost samples = { λ s. samples_of (S.meaning s.input) };

    ghost below = { λ s. S.meaning s.input };

    ghost beyond = { λ s. at_end (S.meaning s.input) };

    fn next(&mut self) -> Option<f32> {
        self.input.next()
    }
}
