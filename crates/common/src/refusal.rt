// What is wrong with a format, and the number of each fault.
ghost use Rattle.std.specs.Prelude.{◌≡◌};
ghost use Rattle.common.specs.Refusals.{format_number};

#[derive(Clone, Copy, Debug, PartialEq, Eq, Hash)]
pub enum FormatRefusal {
    RateOutOfRange,
    ChannelsOutOfRange,
}

impl FormatRefusal {
    // The number that the panel shows.
    pub fn number(&self) -> u8
        ensures answer { result ≡ format_number self.now }
    {
        match self {
            FormatRefusal::RateOutOfRange => 1,
            FormatRefusal::ChannelsOutOfRange => 2,
        }
    }
}
