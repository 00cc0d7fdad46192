// Reads any source in one format: each piece of it is converted to the target rate and then to the target channels.
#![tactic(auto)]

mod take;

ghost use Rattle.std.specs.Prelude.{◌≡◌, true, is_some, [], Some, None};
ghost use Rattle.source.specs.Samples.{first, rest};
ghost use Rattle.source.specs.Spans.{listed};
ghost use Rattle.uniform.specs.Uniform.{uniform};

use crate::take::Take;
use channels::ChannelCountConverter;
use common::duration::Duration;
use common::format::{ChannelCount, Format, SampleRate};
use sample_rate::SampleRateConverter;
use source::{Samples, Source};

// A known span is cut after this many samples.
const CUT_LENGTH: usize = 32_768;

#[derive(Drop)]
pub struct UniformSourceIterator<S> {
    inner: Option<ChannelCountConverter<SampleRateConverter<Take<S>>>>,
    format: Format,
    total_duration: Option<Duration>,
    ghost present: { is_some inner ≡ true },
}

impl<S: Source> UniformSourceIterator<S> {
    ghost use Rattle.uniform.specs.Streams.{stream_left, chain_left, left_of, piece_of, below_of, behind_of};
    ghost use Rattle.uniform.specs.Streams.{uniform_meaning, in_one_format, HoldsSource, Untouched};

    // The chain of converters over the first piece of a source.
    fn bootstrap(input: S, format: Format) -> ChannelCountConverter<SampleRateConverter<Take<S>>>
        ensures stream { stream_left S.meaning format (Some result) ≡ uniform format.channels.count format.rate.rate (listed (S.meaning input).spans) }
        ensures first { first (chain_left S.meaning result) ≡ first (uniform format.channels.count format.rate.rate (listed (S.meaning input).spans)) }
    {
        let n = input.current_span_len().map(|n| n.min(CUT_LENGTH));
        let channels = input.channels();
        let rate = input.sample_rate();
        let piece = SampleRateConverter::new(Take::new(input, n), rate, format.rate, channels);
        ChannelCountConverter::new(piece, channels, format.channels)
    }

    pub fn new(input: S, format: Format) -> UniformSourceIterator<S>
        ensures answer { uniform_meaning S.meaning result ≡ in_one_format format (S.meaning input) }
        ensures law { Untouched format (S.meaning input) (uniform_meaning S.meaning result) }
    {
        let total_duration = input.total_duration();
        UniformSourceIterator {
            inner: Some(Self::bootstrap(input, format)),
            format,
            total_duration,
        }
    }

    // Gives the source back, with what was not drawn of it yet.
    pub fn into_inner(self) -> S
        ensures answer { HoldsSource self.inner result }
    {
        let UniformSourceIterator { inner, .. } = self;
        inner.unwrap().into_inner().into_inner().into_inner()
    }

    // The next sample of the piece. `same`, `format` and `duration`, here and below, are what a call leaves as it was, a line each.
    fn draw(&mut self) -> Option<f32>
        ensures answer { result ≡ first (piece_of S.meaning self.old.inner) }
        ensures after { piece_of S.meaning self.new.inner ≡ rest (piece_of S.meaning self.old.inner) }
        ensures same { behind_of S.meaning self.new.inner ≡ behind_of S.meaning self.old.inner }
        ensures spent { result ≡ None → below_of S.meaning self.new.inner ≡ behind_of S.meaning self.new.inner }
        ensures format { self.new.format ≡ self.old.format }
        ensures duration { self.new.total_duration ≡ self.old.total_duration }
    {
        self.inner.as_mut().unwrap().next()
    }

    // Goes on to the next piece, where this one is spent.
    fn renew(&mut self)
        requires piece { piece_of S.meaning self.old.inner ≡ [] }
        requires spent { below_of S.meaning self.old.inner ≡ behind_of S.meaning self.old.inner }
        ensures stream { left_of S.meaning self.new ≡ left_of S.meaning self.old }
        ensures first { first (piece_of S.meaning self.new.inner) ≡ first (left_of S.meaning self.new) }
        ensures format { self.new.format ≡ self.old.format }
        ensures duration { self.new.total_duration ≡ self.old.total_duration }
    {
        let chain = self.inner.take().unwrap();
        let again = Self::bootstrap(chain.into_inner().into_inner().into_inner(), self.format);
        // by a replacement, since a source may be of a type that cannot be let go
        match std::mem::replace(&mut self.inner, Some(again)) {
            None => {}
            Some(_lost) => unreachable(),
        }
    }
}

impl<S: Source> Source for UniformSourceIterator<S> {
    ghost use Rattle.uniform.specs.Streams.{uniform_meaning};

    ghost meaning = { λ s. uniform_meaning S.meaning s };

    fn channels(&self) -> ChannelCount {
        self.format.channels
    }

    fn sample_rate(&self) -> SampleRate {
        self.format.rate
    }

    fn current_span_len(&self) -> Option<usize> {
        None
    }

    fn total_duration(&self) -> Option<Duration> {
        self.total_duration
    }

    fn next(&mut self) -> Option<f32> {
        if let Some(sample) = self.draw() {
            return Some(sample);
        }
        self.renew();
        self.draw()
    }
}
