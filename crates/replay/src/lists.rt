// Lists of samples, read from a word and written as one.
use crate::words;
use cases::fault::Fault;
use cases::fnv::Fnv;
use cases::reading;
use source::Samples;
use std::alloc::{AllocError, Global};
use std::fmt;
use std::num::f32_to_bits_with_nan;

// How a list is written in an answer: by the bits of each sample, or by their count and hash, as where a ramp was asked for.
#[derive(Clone, Copy, PartialEq)]
pub(crate) enum Form {
    Full,
    Hashed,
}

impl Form {
    // Hashed where either is.
    pub(crate) fn or(self, other: Form) -> Form {
        match self {
            Form::Full => other,
            Form::Hashed => Form::Hashed,
        }
    }
}

// The samples of a list, and how an answer writes what is made of them.
#[derive(Drop)]
pub(crate) struct SampleList {
    pub(crate) samples: Vec<f32>,
    pub(crate) form: Form,
}

// `-` for none, `ramp:N`, or samples joined by commas.
pub(crate) fn list(heap: Global, word: &str) -> Result<SampleList, Fault> {
    match word.strip_prefix("ramp:") {
        Some(n) => Ok(SampleList {
            samples: reading::ramp(heap, reading::number(n)?)?,
            form: Form::Hashed,
        }),
        None => Ok(SampleList {
            samples: words::parts(heap, word, ',', |part| reading::sample(part))?,
            form: Form::Full,
        }),
    }
}

// A list of samples as it is written: the text so far, which is made as the samples come, since they need not be kept beside it, or
// their count and hash.
#[derive(Drop)]
pub(crate) enum Listing {
    Full(String),
    Hashed { count: u64, fnv: Fnv },
}

impl Listing {
    pub(crate) fn new(heap: Global, form: Form) -> Listing {
        match form {
            Form::Full => Listing::Full(String::new(heap)),
            Form::Hashed => Listing::Hashed {
                count: 0,
                fnv: Fnv::new(),
            },
        }
    }

    pub(crate) fn push(&mut self, sample: f32) -> Result<(), AllocError> {
        let bits = f32_to_bits_with_nan(sample);
        match self {
            Listing::Full(text) => {
                if !text.is_empty() {
                    text.push(',')?;
                }
                write!(text, "{bits:08x}")?;
            }
            Listing::Hashed { count, fnv } => {
                fnv.add(bits);
                *count = count.saturating_add(1);
            }
        }
        Ok(())
    }

    // Draws all samples, and writes them down.
    pub(crate) fn write_all<S: Samples>(&mut self, input: &mut S) -> Result<(), AllocError> {
        while let Some(sample) = input.next() {
            self.push(sample)?;
        }
        Ok(())
    }

    pub(crate) fn is_empty(&self) -> bool {
        match self {
            Listing::Full(text) => text.is_empty(),
            Listing::Hashed { count, fnv: _ } => *count == 0,
        }
    }

    // What is printed of it, as an answer of its own.
    pub(crate) fn into_text(self, heap: Global) -> Result<String, AllocError> {
        match self {
            Listing::Full(text) if !text.is_empty() => Ok(text),
            other => format!(in heap; "{other}"),
        }
    }
}

// `-` for none, samples joined by commas, or `#COUNT:HASH`.
impl fmt::Display for Listing {
    fn fmt<W: fmt::Write>(&self, f: &mut fmt::Formatter<W>) -> fmt::Result {
        match self {
            Listing::Full(text) if text.is_empty() => f.write_str("-"),
            Listing::Full(text) => f.write_str(text.as_str()),
            Listing::Hashed { count, fnv } => write!(f, "#{count}:{:016x}", fnv.hash()),
        }
    }
}
