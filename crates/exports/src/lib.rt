// The conversions as functions over slices, which a static library exports.
#![tactic(auto)]

mod drain;

ghost use Rattle.std.specs.Prelude.{◌≡◌, min, length};
ghost use Rattle.exports.specs.Answers.{channels_answer, rate_answer, uniform_answer};
ghost use Rattle.exports.specs.Mixed.{MixAnswer};
ghost use Rattle.exports.specs.Written.{written};

use crate::drain::drain;
use buffer::SamplesBuffer;
use channels::ChannelCountConverter;
use common::format::{ChannelCount, Format, SampleRate};
use parts::mixing::mix;
use sample_rate::SampleRateConverter;
use source::flattened::Flattened;
use uniform::UniformSourceIterator;

// Each function here is called from C by its name, with numbers that it judges itself.

// Writes the samples in frames of `to` channels, as many as there is room for, and answers how many.
#[unsafe(no_mangle)]
pub extern "C" fn kelpie_channels(input: &[f32], out: &mut [f32], from: u16, to: u16) -> usize
    ensures answer { result ≡ min (length out.old) (length (channels_answer from to input.now)) }
    ensures cells { out.new ≡ written (channels_answer from to input.now) out.old }
{
    let Ok(format) = Format::new(from, 1) else {
        return 0;
    };
    let Ok(to) = ChannelCount::new(to) else {
        return 0;
    };
    let Ok(buffer) = SamplesBuffer::new(format, input) else {
        return 0;
    };
    let input = Flattened::new(buffer);
    drain(
        &mut ChannelCountConverter::new(input, format.channels, to),
        out,
    )
}

// Writes the samples at the rate `to`, as many as there is room for, and answers how many.
#[unsafe(no_mangle)]
pub extern "C" fn kelpie_rate(
    input: &[f32],
    out: &mut [f32],
    from: u32,
    to: u32,
    channels: u16,
) -> usize
    ensures answer { result ≡ min (length out.old) (length (rate_answer from to channels input.now)) }
    ensures cells { out.new ≡ written (rate_answer from to channels input.now) out.old }
{
    let Ok(format) = Format::new(channels, from) else {
        return 0;
    };
    let Ok(to) = SampleRate::new(to) else {
        return 0;
    };
    let Ok(buffer) = SamplesBuffer::new(format, input) else {
        return 0;
    };
    let input = Flattened::new(buffer);
    drain(
        &mut SampleRateConverter::new(input, format.rate, to, format.channels),
        out,
    )
}

// Writes the samples in another format, as many as there is room for, and answers how many.
#[unsafe(no_mangle)]
pub extern "C" fn kelpie_uniform(
    input: &[f32],
    out: &mut [f32],
    from_channels: u16,
    from_rate: u32,
    to_channels: u16,
    to_rate: u32,
) -> usize
    ensures answer { result ≡ min (length out.old) (length (uniform_answer from_channels from_rate to_channels to_rate input.now)) }
    ensures cells { out.new ≡ written (uniform_answer from_channels from_rate to_channels to_rate input.now) out.old }
{
    let Ok(format) = Format::new(from_channels, from_rate) else {
        return 0;
    };
    let Ok(to) = Format::new(to_channels, to_rate) else {
        return 0;
    };
    let Ok(buffer) = SamplesBuffer::new(format, input) else {
        return 0;
    };
    let stream = UniformSourceIterator::new(buffer, to);
    drain(&mut Flattened::new(stream), out)
}

// Cuts the samples into so many parts of a length, each a source in one format, mixes them in another format with all added before
// the first answer, writes the answers, as many as there is room for, and answers how many.
#[unsafe(no_mangle)]
pub extern "C" fn kelpie_mix(
    input: &[f32],
    out: &mut [f32],
    each: usize,
    sources: usize,
    from_channels: u16,
    from_rate: u32,
    to_channels: u16,
    to_rate: u32,
) -> usize
    ensures cells { MixAnswer from_channels from_rate to_channels to_rate each sources input.now out.old out.new result }
{
    let Ok(format) = Format::new(from_channels, from_rate) else {
        return 0;
    };
    let Ok(to) = Format::new(to_channels, to_rate) else {
        return 0;
    };
    mix(input, out, format, each, sources, to)
}
