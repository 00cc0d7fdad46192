// rate CHANNELS FROM TO LIST: the list converted from one rate to another, how much of the input the converter uses when it is
// made, and how much each output sample has used.
use crate::conversion::{Conversion, Converted};
use crate::formats::FormatNumbers;
use crate::words::Joined;
use crate::{formats, lists};
use cases::fault::Fault;
use common::format::SampleRate;
use sample_rate::SampleRateConverter;
use std::alloc::Global;

pub(crate) fn rate_answer(heap: Global, fields: &[&str]) -> Result<String, Fault> {
    let [channels, from, to, list] = fields else {
        return Err(Fault::WrongFields);
    };
    let numbers = FormatNumbers::read(channels, from)?;
    let to = formats::rate(to)?;
    let list = lists::list(heap, list)?;
    let format = numbers.judged()?;
    let to = SampleRate::new(to)?;
    let conversion = Conversion {
        format,
        cells: list.samples.as_slice(),
        make: |input| SampleRateConverter::new(input, format.rate, to, format.channels),
    };
    let made = conversion.used(0)?.unwrap_or(0);
    let Converted { listing, used } = conversion.converted(heap, list.form)?;
    Ok(format!(in heap; "{listing} {made} {}", Joined::new(&used, ','))?)
}
