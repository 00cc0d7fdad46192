// What the players' parts ask of one another: a list of samples, and a source of spans in formats of their own.
#![tactic(auto)]

pub mod flattened;

ghost use Rattle.std.specs.Prelude.{◌≡◌, List, drop, None, Float};
ghost use Rattle.source.specs.Samples.{first, rest};
ghost use Rattle.source.specs.Meanings.{Meaning, format_now, span_len_now, samples_of, after_next};

use common::duration::Duration;
use common::format::{ChannelCount, SampleRate};

// A finite list of samples, drawn from some source below it. `below` is that source as it stands, and `beyond` what it will be
// once these samples are drawn: so whoever takes a layer off again knows what is left below.
pub trait Samples {
    ghost samples: { Self → List Float };

    ghost below: { Self → Meaning };

    ghost beyond: { Self → Meaning };

    fn next(&mut self) -> Option<f32>
        ensures answer { result ≡ first (samples self.old) }
        ensures after { samples self.new ≡ rest (samples self.old) }
        ensures same { beyond self.new ≡ beyond self.old }
        ensures spent { result ≡ None → below self.new ≡ beyond self.new };

    // Draws n samples, or all there are, and lets them go.
    fn discard(&mut self, n: usize)
        ensures after { samples self.new ≡ drop n (samples self.old) }
        ensures same { beyond self.new ≡ beyond self.old }
    {
        for _ in 0..n {
            if self.next().is_none() {
                return;
            }
        }
    }
}

// Spans of samples, each in its format, and what is answered once they are gone.
pub trait Source {
    ghost meaning: { Self → Meaning };

    fn channels(&self) -> ChannelCount
        ensures answer { result ≡ (format_now (meaning self.now)).channels };

    fn sample_rate(&self) -> SampleRate
        ensures answer { result ≡ (format_now (meaning self.now)).rate };

    // How many samples are left in the current span, or none where it is open.
    fn current_span_len(&self) -> Option<usize>
        ensures answer { result ≡ span_len_now (meaning self.now) };

    fn total_duration(&self) -> Option<Duration>
        ensures answer { result ≡ (meaning self.now).duration };

    fn next(&mut self) -> Option<f32>
        ensures answer { result ≡ first (samples_of (meaning self.old)) }
        ensures after { meaning self.new ≡ after_next (meaning self.old) };
}
