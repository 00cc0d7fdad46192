// Handing out parts of cells as sources.
ghost use Rattle.std.specs.Prelude.{◌≡◌};
ghost use Rattle.parts.specs.Cut.{parts_of};

use crate::Parts;
use buffer::SamplesBuffer;
use common::format::Format;
use joining::Queue;
use recorded::Recorded;

impl<'a, K: Recorded> Parts<'a, K> {
    pub fn new(cells: &'a [K], format: Format, each: usize, left: usize) -> Parts<'a, K>
        ensures cells { result.cells.now ≡ cells.now }
        ensures format { result.format ≡ format }
        ensures each { result.each ≡ each }
        ensures left { result.left ≡ left }
    {
        Parts {
            cells,
            format,
            each,
            left,
        }
    }
}

impl<'a, K: Recorded> Queue for Parts<'a, K> {
    type Item = SamplesBuffer<'a, K>;

    ghost waiting = { λ q. parts_of K.stands q.format q.each q.left q.cells.now };

    fn next_source(&mut self) -> Option<SamplesBuffer<'a, K>> {
        if self.left == 0 {
            return None;
        }
        let (part, others) = self.cells.split_at_checked(self.each)?;
        let Ok(source) = SamplesBuffer::new(self.format, part) else {
            return None;
        };
        self.cells = others;
        self.left -= 1;
        Some(source)
    }
}
