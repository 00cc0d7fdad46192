// Resamples between two rates by linear interpolation.
#![tactic(auto)]

ghost use Rattle.std.specs.Prelude.{◌≡◌, ◌+◌, ◌*◌, ◌<◌, ◌≤◌, ◌/◌, [], None};
ghost use Rattle.common.specs.Limits.{max_rate};
ghost use Rattle.source.specs.Samples.{first, rest};
ghost use Rattle.rates.specs.Rates.{gcd as greatest_divisor, resampled};
ghost use Rattle.frames.specs.Windows.{seen, seen_past, EndsOn};

use common::format::{ChannelCount, SampleRate};
use frames::window::Window;
use rates::math::gcd;
use source::Samples;

// The step from one output frame to the next: from / to input frames, and this quotient and its rest.
#[derive(Clone, Copy, Debug, PartialEq, Eq)]
pub struct Pace {
    from: u32,
    to: u32,
    whole: u32,
    part: u32,
    ghost from_low: { 1 ≤ from },
    ghost from_high: { from ≤ max_rate },
    ghost to_low: { 1 ≤ to },
    ghost to_high: { to ≤ max_rate },
    ghost divided: { from ≡ whole * to + part },
    ghost below: { part < to },
}

// Interpolates between the two frames of a window, n / to of the way from the first to the second; `at` samples of this
// output frame went out.
#[derive(Drop)]
pub struct Resampler<I> {
    window: Window<I>,
    pace: Pace,
    n: u32,
    at: usize,
    ghost below: { n < pace.to },
}

impl Pace {
    // The rates without their common divisor.
    pub fn new(from: SampleRate, to: SampleRate) -> Pace
        ensures from { result.from ≡ from.rate / greatest_divisor from.rate to.rate }
        ensures to { result.to ≡ to.rate / greatest_divisor from.rate to.rate }
    {
        let from_rate = from.get();
        let to_rate = to.get();
        let divisor = gcd(from_rate, to_rate);
        let numerator = from_rate / divisor;
        let denominator = to_rate / divisor;
        Pace {
            from: numerator,
            to: denominator,
            whole: numerator / denominator,
            part: numerator % denominator,
        }
    }
}

// `pace`, `channels` and `same` say of a call what it leaves as it was, a line each: a name for it would say no more. `law` is of the
// input that the resampler was made over, which no field holds.
impl<I: Samples> Resampler<I> {
    ghost use Rattle.resampler.specs.Resamplers.{remaining, following, sample_here, place_next, steps_next, Drawn, LeavesInput};

    pub fn new(input: I, pace: Pace, channels: ChannelCount) -> Resampler<I>
        ensures answer { remaining I.samples result ≡ resampled pace.from pace.to channels.count (I.samples input) }
        ensures same { I.beyond result.window.input ≡ I.beyond input }
        ensures law { Drawn I.samples (I.samples input) 0 result }
        ensures pace { result.pace ≡ pace }
        ensures channels { result.window.channels ≡ channels }
    {
        Resampler {
            window: Window::new(input, channels),
            pace,
            n: 0,
            at: 0,
        }
    }

    // The next sample of the output frame, or none at its end.
    fn sample(&self) -> Option<f32>
        ensures answer { result ≡ sample_here self.now }
    {
        self.window
            .sample(self.at, self.n as f32, self.pace.to as f32)
    }

    // Moves on to the next output frame.
    fn begin(&mut self)
        ensures after { remaining I.samples self.new ≡ following I.samples self.old }
        ensures at { self.new.at ≡ 0 }
        ensures place { self.new.n ≡ place_next self.old }
        ensures passed { seen I.samples self.new.window ≡ seen_past I.samples (steps_next self.old) self.old.window }
        ensures law { EndsOn I.samples self.old.window self.new.window }
        ensures same { I.beyond self.new.window.input ≡ I.beyond self.old.window.input }
        ensures pace { self.new.pace ≡ self.old.pace }
        ensures channels { self.new.window.channels ≡ self.old.window.channels }
    {
        let mut steps = self.pace.whole;
        let mut n = self.n + self.pace.part;
        if n >= self.pace.to {
            n -= self.pace.to;
            steps += 1;
        }
        self.n = n;
        self.at = 0;
        self.window.skip(steps);
    }

    pub fn into_inner(self) -> I
        ensures answer { result ≡ self.window.input }
        ensures law { LeavesInput I.samples self result }
    {
        let Resampler { window, .. } = self;
        window.into_inner()
    }
}

impl<I: Samples> Samples for Resampler<I> {
    ghost use Rattle.resampler.specs.Resamplers.{remaining, DrawsOn};

    ghost samples = { λ s. remaining I.samples s };

    ghost below = { λ s. I.below s.window.input };

    ghost beyond = { λ s. I.beyond s.window.input };

    fn next(&mut self) -> Option<f32>
        ensures answer { result ≡ first (remaining I.samples self.old) }
        ensures after { remaining I.samples self.new ≡ rest (remaining I.samples self.old) }
        ensures same { I.beyond self.new.window.input ≡ I.beyond self.old.window.input }
        ensures spent { result ≡ None → I.below self.new.window.input ≡ I.beyond self.new.window.input }
        ensures drained { result ≡ None → I.samples self.new.window.input ≡ [] }
        ensures law { DrawsOn I.samples self.old result self.new }
        ensures pace { self.new.pace ≡ self.old.pace }
        ensures channels { self.new.window.channels ≡ self.old.window.channels }
    {
        if let Some(x) = self.sample() {
            self.at += 1;
            return Some(x);
        }
        if !self.window.is_last() {
            self.begin();
            if let Some(x) = self.sample() {
                self.at = 1;
                return Some(x);
            }
        }
        self.window.exhaust();
        None
    }
}
