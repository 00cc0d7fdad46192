// What is wrong with cells handed in for a buffer, and its number.
ghost use Rattle.std.specs.Prelude.{◌≡◌};
ghost use Rattle.buffer.specs.Refusals.{buffer_number};

#[derive(Clone, Copy, Debug, PartialEq, Eq, Hash)]
pub enum BufferRefusal {
    TooManyCells,
}

impl BufferRefusal {
    // The number that the panel shows.
    pub fn number(&self) -> u8
        ensures answer { result ≡ buffer_number self.now }
    {
        match self {
            BufferRefusal::TooManyCells => 3,
        }
    }
}
