// A frame: up to eight samples, one of each channel.
ghost use Rattle.std.specs.Prelude.{◌≡◌, ◌≤◌, [], length, take, drop};
ghost use Rattle.source.specs.Samples.{first};

use common::format::ChannelCount;
use source::Samples;

// A plain record, so that a frame needs no memory of its own. It has no model: a struct that has one and is `Copy` is not covered yet
// where a value that holds it, and a reference, is handed on.
#[derive(Clone, Copy)]
pub struct Frame {
    samples: [f32; 8],
    len: usize,
    ghost within: { len ≤ 8 },
}

impl Frame {
    ghost use Rattle.frames.specs.Frames.{framed};

    pub fn new() -> Frame
        ensures answer { framed result ≡ [] }
    {
        Frame {
            samples: [0.0; 8],
            len: 0,
        }
    }

    pub fn clear(&mut self)
        ensures after { framed self.new ≡ [] }
    {
        self.len = 0;
    }

    // Takes over the samples of `other`.
    pub fn copy_from(&mut self, other: &Frame)
        ensures after { framed self.new ≡ framed other.now }
    {
        self.samples = other.samples;
        self.len = other.len;
    }

    // Reads the next samples of `input`, one for each channel, or fewer at its end. The cells are reached by their places, here and
    // below: the checker lends no field of a struct with a ghost field to an iterator.
    pub fn refill<I: Samples>(&mut self, input: &mut I, channels: ChannelCount)
        ensures filled { framed self.new ≡ take channels.count (I.samples input.old) }
        ensures after { I.samples input.new ≡ drop channels.count (I.samples input.old) }
        ensures same { I.beyond input.new ≡ I.beyond input.old }
    {
        let count = channels.get() as usize;
        for i in 0..count {
            match input.next() {
                Some(x) => self.samples[i] = x,
                None => {
                    self.len = i;
                    return;
                }
            }
        }
        self.len = count;
    }

    // Takes over the samples of `next`, and reads as many more of `input` into it, or fewer at its end. One loop does both: a copy of
    // a frame that was just filled is read in wider pieces than it was written in, and the processor waits.
    pub(crate) fn shift<I: Samples>(&mut self, next: &mut Frame, input: &mut I)
        ensures taken { framed self.new ≡ framed next.old }
        ensures filled { framed next.new ≡ take (length (framed next.old)) (I.samples input.old) }
        ensures after { I.samples input.new ≡ drop (length (framed next.old)) (I.samples input.old) }
        ensures same { I.beyond input.new ≡ I.beyond input.old }
    {
        let count = next.len;
        let mut read = 0;
        for i in 0..count {
            self.samples[i] = next.samples[i];
            if let Some(x) = input.next() {
                next.samples[i] = x;
                read = i + 1;
            }
        }
        self.len = count;
        next.len = read;
    }

    pub fn as_slice(&self) -> &[f32]
        ensures answer { result.now ≡ framed self.now }
        ensures bound { length result.now ≤ 8 }
    {
        &self.samples[..self.len]
    }

    pub fn len(&self) -> usize
        ensures answer { result ≡ length (framed self.now) }
        ensures bound { result ≤ 8 }
    {
        self.as_slice().len()
    }

    pub fn get(&self, i: usize) -> Option<f32>
        ensures answer { result ≡ first (drop i (framed self.now)) }
    {
        self.as_slice().get(i).copied()
    }
}
