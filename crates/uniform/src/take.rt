// The front of a source as a list of samples.
ghost use Rattle.std.specs.Prelude.{◌≡◌};
ghost use Rattle.source.specs.Meanings.{samples_of};
ghost use Rattle.uniform.specs.Takes.{taken, behind};

use source::{Samples, Source};

// The next n samples of a source, or all that it has.
#[derive(Drop)]
pub(crate) struct Take<S> {
    iter: S,
    n: Option<usize>,
}

impl<S: Source> Take<S> {
    pub(crate) fn new(iter: S, n: Option<usize>) -> Take<S>
        ensures iter { result.iter ≡ iter }
        ensures n { result.n ≡ n }
    {
        Take { iter, n }
    }

    pub(crate) fn into_inner(self) -> S
        ensures answer { result ≡ self.iter }
    {
        let Take { iter, .. } = self;
        iter
    }
}

impl<S: Source> Samples for Take<S> {
    ghost samples = { λ s. taken s.n (samples_of (S.meaning s.iter)) };

    ghost below = { λ s. S.meaning s.iter };

    ghost beyond = { λ s. behind s.n (S.meaning s.iter) };

    fn next(&mut self) -> Option<f32> {
        match self.n {
            None => self.iter.next(),
            Some(n) => {
                self.n = Some(n.checked_sub(1)?);
                self.iter.next()
            }
        }
    }
}
