// A channel count and a sample rate that lie within the limits, and the format of the two.
ghost use Rattle.std.specs.Prelude.{◌≡◌, ◌≤◌};
ghost use Rattle.common.specs.Limits.{max_channels, max_rate};

use crate::refusal::FormatRefusal;

pub const MAX_CHANNELS: u16 = 8;

pub const MAX_SAMPLE_RATE: u32 = 65_536;

// Two types, as in rodio: each has its width, its limit and its refusal, and a const parameter cannot be of a type that is one too.
#[derive(Clone, Copy, Debug, PartialEq, Eq, Hash)]
pub struct ChannelCount {
    count: u16,
    ghost low: { 1 ≤ count },
    ghost high: { count ≤ max_channels },
}

#[derive(Clone, Copy, Debug, PartialEq, Eq, Hash)]
pub struct SampleRate {
    rate: u32,
    ghost low: { 1 ≤ rate },
    ghost high: { rate ≤ max_rate },
}

#[derive(Clone, Copy, Debug, PartialEq, Eq, Hash)]
pub struct Format {
    pub channels: ChannelCount,
    pub rate: SampleRate,
}

impl ChannelCount {
    ghost use Rattle.common.specs.Formats.{channels_judged, count_of};

    pub fn new(count: u16) -> Result<ChannelCount, FormatRefusal>
        ensures answer { count_of result ≡ channels_judged count }
    {
        if count == 0 || count > MAX_CHANNELS {
            return Err(FormatRefusal::ChannelsOutOfRange);
        }
        Ok(ChannelCount { count })
    }

    pub fn get(self) -> u16
        ensures answer { result ≡ self.count }
        ensures low { 1 ≤ result }
        ensures high { result ≤ max_channels }
    {
        self.count
    }
}

impl SampleRate {
    ghost use Rattle.common.specs.Formats.{rate_judged, rate_of};

    pub fn new(rate: u32) -> Result<SampleRate, FormatRefusal>
        ensures answer { rate_of result ≡ rate_judged rate }
    {
        if rate == 0 || rate > MAX_SAMPLE_RATE {
            return Err(FormatRefusal::RateOutOfRange);
        }
        Ok(SampleRate { rate })
    }

    pub fn get(self) -> u32
        ensures answer { result ≡ self.rate }
        ensures low { 1 ≤ result }
        ensures high { result ≤ max_rate }
    {
        self.rate
    }
}

impl Format {
    ghost use Rattle.common.specs.Formats.{format_judged, numbers_of};

    pub fn new(channels: u16, rate: u32) -> Result<Format, FormatRefusal>
        ensures answer { numbers_of result ≡ format_judged channels rate }
    {
        let channels = ChannelCount::new(channels)?;
        let rate = SampleRate::new(rate)?;
        Ok(Format { channels, rate })
    }
}
