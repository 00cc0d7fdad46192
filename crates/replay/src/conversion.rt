// Converting a list of samples, and how much of it each output sample has used.
use crate::drawing::{count, draw};
use crate::lists::{Form, Listing};
use buffer::SamplesBuffer;
use buffer::refusal::BufferRefusal;
use cases::fault::Fault;
use channels::ChannelCountConverter;
use common::format::Format;
use sample_rate::SampleRateConverter;
use source::Samples;
use source::flattened::Flattened;
use std::alloc::Global;

// The samples of a list, as a converter's input.
pub(crate) type Input<'a> = Flattened<SamplesBuffer<'a, f32>>;

// A converter, whose input can be taken back.
pub(crate) trait Converter: Samples + Drop {
    type Input: Samples + Drop;

    fn into_input(self) -> Self::Input;
}

// One for each converter, whose `into_inner` is no method of a trait.
impl<I: Samples + Drop> Converter for ChannelCountConverter<I> {
    type Input = I;

    fn into_input(self) -> I {
        self.into_inner()
    }
}

impl<I: Samples + Drop> Converter for SampleRateConverter<I> {
    type Input = I;

    fn into_input(self) -> I {
        self.into_inner()
    }
}

// What a list converts to, and how much of it each output sample has used.
#[derive(Drop)]
pub(crate) struct Converted {
    pub(crate) listing: Listing,
    pub(crate) used: Vec<usize>,
}

// Cells in a format, and how a converter of them is made.
#[derive(Drop)]
pub(crate) struct Conversion<'a, F> {
    pub(crate) format: Format,
    pub(crate) cells: &'a [f32],
    pub(crate) make: F,
}

// Each method asks that `make` may be called, since a ghost field cannot cite a closure's members yet.
impl<'a, C: Converter, F: Fn(Input<'a>) -> C> Conversion<'a, F> {
    fn converter(&self) -> Result<C, BufferRefusal>
        requires { F.IsAlwaysCallable self.now.make }
    {
        let buffer = SamplesBuffer::new(self.format, self.cells)?;
        Ok((self.make)(Flattened::new(buffer)))
    }

    // How many input samples are gone once n output samples were drawn; none where there are fewer.
    pub(crate) fn used(&self, n: usize) -> Result<Option<usize>, BufferRefusal>
        requires { F.IsAlwaysCallable self.now.make }
    {
        let mut converter = self.converter()?;
        let drawn = draw(&mut converter, n);
        let left = count(&mut converter.into_input());
        Ok(drawn.then_some(self.cells.len().saturating_sub(left)))
    }

    // Of a list that is written by its hash, nothing is said of each output sample.
    pub(crate) fn converted(&self, heap: Global, form: Form) -> Result<Converted, Fault>
        requires { F.IsAlwaysCallable self.now.make }
    {
        let mut listing = Listing::new(heap, form);
        listing.write_all(&mut self.converter()?)?;
        let mut used = Vec::new(heap);
        if form == Form::Full {
            // n is how many samples are drawn, and no index
            for n in 1..usize::MAX {
                match self.used(n)? {
                    Some(gone) => used.push(gone)?,
                    None => break,
                }
            }
        }
        Ok(Converted { listing, used })
    }
}
