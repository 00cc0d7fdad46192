// buffer CHANNELS RATE LENGTH: the duration in nanoseconds of a buffer of so many cells.
use crate::formats::FormatNumbers;
use buffer::SamplesBuffer;
use cases::fault::Fault;
use cases::reading;
use source::Source;
use std::alloc::Global;

pub(crate) fn buffer_answer(heap: Global, fields: &[&str]) -> Result<String, Fault> {
    let [channels, rate, length] = fields else {
        return Err(Fault::WrongFields);
    };
    let numbers = FormatNumbers::read(channels, rate)?;
    let cells = reading::ramp(heap, reading::number(length)?)?;
    let buffer = SamplesBuffer::new(numbers.judged()?, cells.as_slice())?;
    match buffer.total_duration() {
        Some(duration) => Ok(format!(in heap; "{}", duration.as_nanos())?),
        None => Ok(String::from_str(heap, "none")?),
    }
}
