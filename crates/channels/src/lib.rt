// Converts samples from one channel count to another.
#![tactic(auto)]

ghost use Rattle.std.specs.Prelude.{◌<◌, ◌≡◌, None};
ghost use Rattle.source.specs.Samples.{first, rest};
ghost use Rattle.channels.specs.Channels.{channels_converted};

use common::format::ChannelCount;
use source::Samples;

#[derive(Drop)]
pub struct ChannelCountConverter<I> {
    input: I,
    from: ChannelCount,
    to: ChannelCount,
    // 0.0 before the first sample, when it is not heard: as an `Option` it is written narrow and read wide, which costs more than the sum.
    sample_repeat: f32,
    next_output_sample_pos: usize,
    ghost place: { next_output_sample_pos < to.count },
}

// `counts` and `same` say of a call what it leaves as it was, a line each: a name for it would say no more. `law` is of the input that
// the converter was made over, which no field holds.
impl<I: Samples> ChannelCountConverter<I> {
    ghost use Rattle.channels.specs.Converters.{converted, Gave, LeavesInput};
    ghost use Rattle.channels.specs.Converters.{sample_here, input_after_sample, held_after_sample, place_after, input_after_place};

    pub fn new(input: I, from: ChannelCount, to: ChannelCount) -> ChannelCountConverter<I>
        ensures answer { converted I.samples result ≡ channels_converted from.count to.count (I.samples input) }
        ensures same { result.input ≡ input }
        ensures law { Gave I.samples from.count to.count (I.samples input) 0 result }
    {
        ChannelCountConverter {
            input,
            from,
            to,
            sample_repeat: 0.0,
            next_output_sample_pos: 0,
        }
    }

    // The sample at the place of the output frame that is next.
    fn sample(&mut self) -> Option<f32>
        ensures answer { result ≡ sample_here I.samples self.old }
        ensures input { I.samples self.new.input ≡ input_after_sample I.samples self.old }
        ensures held { self.new.sample_repeat ≡ held_after_sample I.samples self.old }
        ensures place { self.new.next_output_sample_pos ≡ self.old.next_output_sample_pos }
        ensures counts { (self.new.from ≡ self.old.from) × (self.new.to ≡ self.old.to) }
        ensures same { I.beyond self.new.input ≡ I.beyond self.old.input }
        ensures spent { result ≡ None → I.below self.new.input ≡ I.beyond self.new.input }
    {
        match self.next_output_sample_pos {
            0 => {
                // kept for the second channel of a mono input
                let value = self.input.next();
                if let Some(sample) = value {
                    self.sample_repeat = sample;
                }
                value
            }
            x if x < self.from.get() as usize => self.input.next(),
            1 => Some(self.sample_repeat),
            _ => Some(0.0),
        }
    }

    // Moves on by one place; behind the last place of an output frame the rest of the input frame is dropped.
    fn advance(&mut self)
        ensures place { self.new.next_output_sample_pos ≡ place_after I.samples self.old }
        ensures input { I.samples self.new.input ≡ input_after_place I.samples self.old }
        ensures held { self.new.sample_repeat ≡ self.old.sample_repeat }
        ensures counts { (self.new.from ≡ self.old.from) × (self.new.to ≡ self.old.to) }
        ensures same { I.beyond self.new.input ≡ I.beyond self.old.input }
    {
        self.next_output_sample_pos += 1;
        if self.next_output_sample_pos == self.to.get() as usize {
            self.next_output_sample_pos = 0;
            let from = self.from.get();
            let to = self.to.get();
            if from > to {
                self.input.discard(usize::from(from - to));
            }
        }
    }

    pub fn into_inner(self) -> I
        ensures answer { result ≡ self.input }
        ensures law { LeavesInput I.samples self result }
    {
        let ChannelCountConverter { input, .. } = self;
        input
    }
}

impl<I: Samples> Samples for ChannelCountConverter<I> {
    ghost use Rattle.channels.specs.Converters.{converted, GivesOn};

    ghost samples = { λ s. converted I.samples s };

    ghost below = { λ s. I.below s.input };

    ghost beyond = { λ s. I.beyond s.input };

    fn next(&mut self) -> Option<f32>
        ensures answer { result ≡ first (converted I.samples self.old) }
        ensures after { converted I.samples self.new ≡ rest (converted I.samples self.old) }
        ensures same { I.beyond self.new.input ≡ I.beyond self.old.input }
        ensures spent { result ≡ None → I.below self.new.input ≡ I.beyond self.new.input }
        ensures law { GivesOn I.samples self.old result self.new }
    {
        let result = self.sample();
        if result.is_some() {
            self.advance();
        }
        result
    }
}
