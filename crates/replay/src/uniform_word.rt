// uniform CHANNELS RATE SOURCE: the uniform stream of a source.
use crate::formats::FormatNumbers;
use crate::lists::Listing;
use crate::sources;
use cases::fault::Fault;
use source::flattened::Flattened;
use std::alloc::Global;
use uniform::UniformSourceIterator;

pub(crate) fn uniform_answer(heap: Global, fields: &[&str]) -> Result<String, Fault> {
    let [channels, rate, source] = fields else {
        return Err(Fault::WrongFields);
    };
    let numbers = FormatNumbers::read(channels, rate)?;
    let read = sources::source(heap, source)?;
    let stream = UniformSourceIterator::new(read.source, numbers.judged()?);
    let mut listing = Listing::new(heap, read.form);
    listing.write_all(&mut Flattened::new(stream))?;
    Ok(listing.into_text(heap)?)
}
