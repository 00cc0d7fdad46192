// Why a case has no answer: it was refused, or its line cannot be read.
ghost use Rattle.std.specs.Prelude.{◌≡◌, Some};
ghost use Rattle.cases.specs.Faults.{fault_text};
ghost use Rattle.cases.specs.declared.fault.Fault.TheVariants.{Format as FormatFault, Buffer as BufferFault, Memory};

use buffer::refusal::BufferRefusal;
use common::refusal::FormatRefusal;
use std::alloc::{AllocError, AllocFailed};
use std::fmt;

#[derive(Debug, Drop)]
pub enum Fault {
    Format(FormatRefusal),
    Buffer(BufferRefusal),
    NotText,
    NoSuchWord,
    WrongFields,
    NotANumber,
    NotASample,
    ListTooLong,
    NotASource,
    NoSuchFormat,
    EmptySpan,
    OpenSpanNotLast,
    NotACall,
    Memory,
}

// A refusal is printed by its number.
impl fmt::Display for Fault {
    ghost output = { λ fault. Some (fault_text fault) };

    fn fmt<W: fmt::Write>(&self, f: &mut fmt::Formatter<W>) -> fmt::Result {
        match self {
            Fault::Format(refusal) => write!(f, "refused {}", refusal.number()),
            Fault::Buffer(refusal) => write!(f, "refused {}", refusal.number()),
            Fault::NotText => f.write_str("? the line is no text"),
            Fault::NoSuchWord => f.write_str("? no such word"),
            Fault::WrongFields => f.write_str("? more or fewer fields than the word has"),
            Fault::NotANumber => f.write_str(
                "? a number is not written in decimal digits, or is too large",
            ),
            Fault::NotASample => f.write_str(
                "? a sample is not written in eight hexadecimal digits",
            ),
            Fault::ListTooLong => f.write_str("? a list is longer than 16777217 samples"),
            Fault::NotASource => f.write_str("? a source is not written TOTAL;REST;SPAN;SPAN.."),
            Fault::NoSuchFormat => f.write_str("? a source has a format outside the limits"),
            Fault::EmptySpan => f.write_str("? a source has an empty span"),
            Fault::OpenSpanNotLast => f.write_str(
                "? a source has an open span that is not its last",
            ),
            Fault::NotACall => f.write_str("? a call is not written n, or a and a number"),
            Fault::Memory => f.write_str("? not enough memory"),
        }
    }
}

// Written out, since an `impl` by derive has no clause that says which fault comes.
impl From<FormatRefusal> for Fault {
    ghost from_gives = { λ e r. r ≡ FormatFault e };

    fn from(refusal: FormatRefusal) -> Fault {
        Fault::Format(refusal)
    }
}

impl From<BufferRefusal> for Fault {
    ghost from_gives = { λ e r. r ≡ BufferFault e };

    fn from(refusal: BufferRefusal) -> Fault {
        Fault::Buffer(refusal)
    }
}

impl From<AllocError> for Fault {
    ghost from_gives = { λ _ r. r ≡ Memory };

    fn from(_e: AllocError) -> Fault {
        Fault::Memory
    }
}

impl<T: Drop> From<AllocFailed<T>> for Fault {
    ghost from_gives = { λ _ r. r ≡ Memory };

    fn from(_e: AllocFailed<T>) -> Fault {
        Fault::Memory
    }
}
