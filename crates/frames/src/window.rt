// Two frames of an input, one behind the other.
ghost use Rattle.rates.specs.Onward.{Lined};
ghost use Rattle.std.specs.Prelude.{◌≡◌, ◌+◌, [], length, drop, ◌==◌};
ghost use Rattle.source.specs.Samples.{first};
ghost use Rattle.frames.specs.Frames.{framed};

use crate::frame::Frame;
use common::format::ChannelCount;
use rates::math::lerp;
use source::Samples;

#[derive(Drop)]
pub struct Window<I> {
    input: I,
    current: Frame,
    next: Frame,
    channels: ChannelCount,
    ghost lined: { Lined channels.count (framed current) (framed next) },
}

// What a call leaves as it was, and what holds behind a short frame, are clauses: they are of the window before and after, and a ghost
// field that cites the input's meaning would ask for the bound on every struct above.
impl<I: Samples> Window<I> {
    ghost use Rattle.frames.specs.Windows.{seen, seen_past, showing_by, Ended, EndsOn};

    pub fn new(input: I, channels: ChannelCount) -> Window<I>
        ensures answer { seen I.samples result ≡ I.samples input }
        ensures same { I.beyond result.input ≡ I.beyond input }
        ensures channels { result.channels ≡ channels }
        ensures law { Ended I.samples result }
    {
        let mut input = input;
        let mut current = Frame::new();
        current.refill(&mut input, channels);
        let mut next = Frame::new();
        next.refill(&mut input, channels);
        Window {
            input,
            current,
            next,
            channels,
        }
    }

    // One frame on. A short frame is the last.
    fn advance(&mut self)
        ensures after { seen I.samples self.new ≡ seen_past I.samples 1 self.old }
        ensures same { I.beyond self.new.input ≡ I.beyond self.old.input }
        ensures channels { self.new.channels ≡ self.old.channels }
        ensures law { EndsOn I.samples self.old self.new }
    {
        if self.next.len() < self.channels.get() as usize {
            self.current.copy_from(&self.next);
            self.next.clear();
        } else {
            self.current.shift(&mut self.next, &mut self.input);
        }
    }

    // Past both frames and `frames` more.
    fn leap(&mut self, frames: u32)
        ensures after { seen I.samples self.new ≡ seen_past I.samples (frames + 2) self.old }
        ensures same { I.beyond self.new.input ≡ I.beyond self.old.input }
        ensures channels { self.new.channels ≡ self.old.channels }
        ensures law { EndsOn I.samples self.old self.new }
    {
        let count = self.channels.get() as usize;
        if self.next.len() < count {
            self.current.clear();
            self.next.clear();
        } else {
            self.input.discard(frames as usize * count);
            self.current.refill(&mut self.input, self.channels);
            self.next.refill(&mut self.input, self.channels);
        }
    }

    pub fn skip(&mut self, steps: u32)
        ensures after { seen I.samples self.new ≡ seen_past I.samples steps self.old }
        ensures same { I.beyond self.new.input ≡ I.beyond self.old.input }
        ensures channels { self.new.channels ≡ self.old.channels }
        ensures law { EndsOn I.samples self.old self.new }
    {
        if steps == 1 {
            self.advance();
        } else if steps > 1 {
            self.leap(steps - 2);
        }
    }

    pub fn is_last(&self) -> bool
        ensures answer { result ≡ (length (framed self.now.next) == 0) }
    {
        self.next.len() == 0
    }

    // Sample i of the output frame that lies numerator / denominator of the way from the current frame to the next.
    pub fn sample(&self, i: usize, numerator: f32, denominator: f32) -> Option<f32>
        ensures answer { result ≡ first (drop i (showing_by numerator denominator self.now)) }
    {
        if self.next.len() == 0 {
            return self.current.get(i);
        }
        let first = self.current.get(i)?;
        let second = self.next.get(i)?;
        Some(lerp(first, second, numerator, denominator))
    }

    // Draws all that the input has left.
    pub fn exhaust(&mut self)
        ensures after { I.samples self.new.input ≡ [] }
        ensures same { I.beyond self.new.input ≡ I.beyond self.old.input }
        ensures spent { I.below self.new.input ≡ I.beyond self.new.input }
        ensures frames { (self.new.current ≡ self.old.current) × (self.new.next ≡ self.old.next) }
        ensures channels { self.new.channels ≡ self.old.channels }
    {
        while let Some(_) = self.input.next() {}
    }

    pub fn into_inner(self) -> I
        ensures answer { result ≡ self.input }
    {
        let Window { input, .. } = self;
        input
    }
}
