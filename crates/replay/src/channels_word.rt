// channels C T LIST: the list converted from C channels to T, and how much of the input each output sample has used.
use crate::conversion::{Conversion, Converted};
use crate::words::Joined;
use crate::{formats, lists};
use cases::fault::Fault;
use channels::ChannelCountConverter;
use common::format::{ChannelCount, Format, SampleRate};
use std::alloc::Global;

pub(crate) fn channels_answer(heap: Global, fields: &[&str]) -> Result<String, Fault> {
    let [from, to, list] = fields else {
        return Err(Fault::WrongFields);
    };
    let from = formats::channels(from)?;
    let to = formats::channels(to)?;
    let list = lists::list(heap, list)?;
    let channels = ChannelCount::new(from)?;
    let to = ChannelCount::new(to)?;
    let rate = SampleRate::new(1)?;
    let conversion = Conversion {
        format: Format { channels, rate },
        cells: list.samples.as_slice(),
        make: |input| ChannelCountConverter::new(input, channels, to),
    };
    let Converted { listing, used } = conversion.converted(heap, list.form)?;
    Ok(format!(in heap; "{listing} {}", Joined::new(&used, ','))?)
}
