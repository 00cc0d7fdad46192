// Converts samples from one rate to another.
#![tactic(auto)]

mod way;

ghost use Rattle.std.specs.Prelude.{◌≡◌, [], None};
ghost use Rattle.source.specs.Samples.{first, rest};
ghost use Rattle.rates.specs.Law.{RateLaw};
ghost use Rattle.rates.specs.Rates.{rate_converted};

use crate::way::Way;
use common::format::{ChannelCount, SampleRate};
use resampler::{Pace, Resampler};
use source::Samples;

#[derive(Drop)]
pub struct SampleRateConverter<I> {
    way: Way<I>,
}

// `same` says of a call what it leaves as it was, in a line; `law` is of the input that the converter was made over, which no field holds.
impl<I: Samples> SampleRateConverter<I> {
    ghost use Rattle.sample_rate.specs.Converters.{converted, inner, Given, LeavesInput};

    pub fn new(
        input: I,
        from: SampleRate,
        to: SampleRate,
        channels: ChannelCount,
    ) -> SampleRateConverter<I>
        ensures answer { converted I.samples result ≡ rate_converted from.rate to.rate channels.count (I.samples input) }
        ensures same { I.beyond (inner result) ≡ I.beyond input }
        ensures law { Given I.samples from.rate to.rate channels.count (I.samples input) 0 result }
        ensures frames { RateLaw from.rate to.rate channels.count (I.samples input) (converted I.samples result) }
    {
        if from == to {
            return SampleRateConverter {
                way: Way::Same(input),
            };
        }
        let pace = Pace::new(from, to);
        SampleRateConverter {
            way: Way::Between(Resampler::new(input, pace, channels)),
        }
    }

    pub fn into_inner(self) -> I
        ensures answer { result ≡ inner self }
        ensures law { LeavesInput I.samples self result }
    {
        let SampleRateConverter { way } = self;
        match way {
            Way::Same(input) => input,
            Way::Between(resampler) => resampler.into_inner(),
        }
    }
}

impl<I: Samples> Samples for SampleRateConverter<I> {
    ghost use Rattle.sample_rate.specs.Converters.{converted, inner, GivesOn};

    ghost samples = { λ s. converted I.samples s };

    ghost below = { λ s. I.below (inner s) };

    ghost beyond = { λ s. I.beyond (inner s) };

    fn next(&mut self) -> Option<f32>
        ensures answer { result ≡ first (converted I.samples self.old) }
        ensures after { converted I.samples self.new ≡ rest (converted I.samples self.old) }
        ensures same { I.beyond (inner self.new) ≡ I.beyond (inner self.old) }
        ensures spent { result ≡ None → I.below (inner self.new) ≡ I.beyond (inner self.new) }
        ensures drained { result ≡ None → I.samples (inner self.new) ≡ [] }
        ensures law { GivesOn I.samples self.old result self.new }
    {
        match &mut self.way {
            Way::Same(input) => input.next(),
            Way::Between(resampler) => resampler.next(),
        }
    }
}
