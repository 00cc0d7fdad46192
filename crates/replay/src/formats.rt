// Channel counts and rates, read from a word.
use cases::fault::Fault;
use cases::reading;
use common::format::Format;
use common::refusal::FormatRefusal;

// A number past the type stands for the type's largest, which is above every limit too.
fn number<N: TryFrom<u64, Error: Drop> + Drop>(word: &str, largest: N) -> Result<N, Fault> {
    Ok(N::try_from(reading::number(word)?).unwrap_or(largest))
}

pub(crate) fn channels(word: &str) -> Result<u16, Fault> {
    number(word, u16::MAX)
}

pub(crate) fn rate(word: &str) -> Result<u32, Fault> {
    number(word, u32::MAX)
}

// The two numbers of a format, which are judged once the whole line is read.
#[derive(Clone, Copy)]
pub(crate) struct FormatNumbers {
    channels: u16,
    rate: u32,
}

impl FormatNumbers {
    pub(crate) fn read(channels_word: &str, rate_word: &str) -> Result<FormatNumbers, Fault> {
        Ok(FormatNumbers {
            channels: channels(channels_word)?,
            rate: rate(rate_word)?,
        })
    }

    pub(crate) fn judged(self) -> Result<Format, FormatRefusal> {
        Format::new(self.channels, self.rate)
    }
}
