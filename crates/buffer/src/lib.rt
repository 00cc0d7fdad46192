// A source over sample cells handed in for reading, written once for every recorded kind.
#![tactic(auto)]

pub mod refusal;

ghost use Rattle.std.specs.Prelude.{◌≤◌, length, ◌≡◌, ◌<◌, map, MatchResult};
ghost use Rattle.buffer.specs.Refusals.{max_cells};
ghost use Rattle.buffer.specs.declared.refusal.BufferRefusal.TheVariants.{TooManyCells};

use crate::refusal::BufferRefusal;
use common::duration::Duration;
use common::format::{ChannelCount, Format, SampleRate};
use recorded::Recorded;
use source::Source;

pub const MAX_CELLS: usize = 16_777_216;

#[derive(Drop)]
pub struct SamplesBuffer<'a, K> {
    cells: &'a [K],
    pos: usize,
    format: Format,
    duration: Duration,
    ghost within: { pos ≤ length cells.now },
}

impl<'a, K: Recorded> SamplesBuffer<'a, K> {
    ghost use Rattle.buffer.specs.Buffers.{buffer_meaning, OneOpenSpan};

    pub fn new(format: Format, cells: &'a [K]) -> Result<SamplesBuffer<'a, K>, BufferRefusal>
        ensures answer { MatchResult result
            (λ s. (length cells.now ≤ max_cells) × OneOpenSpan format (map K.stands cells.now) (buffer_meaning K.stands s))
            (λ e. (max_cells < length cells.now) × (e ≡ TooManyCells)) }
    {
        if cells.len() > MAX_CELLS {
            return Err(BufferRefusal::TooManyCells);
        }
        let nanos = 1_000_000_000 * cells.len() as u64
            / format.rate.get() as u64
            / format.channels.get() as u64;
        Ok(SamplesBuffer {
            cells,
            pos: 0,
            format,
            duration: Duration::from_nanos(nanos),
        })
    }
}

impl<'a, K: Recorded> Source for SamplesBuffer<'a, K> {
    ghost use Rattle.buffer.specs.Buffers.{buffer_meaning};

    ghost meaning = { λ s. buffer_meaning K.stands s };

    fn channels(&self) -> ChannelCount {
        self.format.channels
    }

    fn sample_rate(&self) -> SampleRate {
        self.format.rate
    }

    fn current_span_len(&self) -> Option<usize> {
        None
    }

    fn total_duration(&self) -> Option<Duration> {
        Some(self.duration)
    }

    fn next(&mut self) -> Option<f32> {
        let sample = self.cells.get(self.pos)?.sample();
        self.pos += 1;
        Some(sample)
    }
}
