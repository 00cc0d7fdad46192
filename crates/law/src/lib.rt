// The law of mixing: what can be asked of a mixer, what it can reply, and which reply each history of calls has.
#![tactic(auto)]

pub mod refusal;
pub mod stands;

ghost use Rattle.std.specs.Prelude.{◌≡◌, Some};
ghost use Rattle.law.specs.Numbers.{refusal_number};
ghost use Rattle.law.specs.Text.{reply_text};

use crate::refusal::AddRefusal;
use std::fmt;
use std::num::f32_to_bits_with_nan;

#[derive(Clone, Copy, Debug, PartialEq, Eq, Hash)]
pub enum Call {
    Add(usize),
    Next,
}

#[derive(Clone, Copy, Debug, PartialEq)]
pub enum Reply {
    Add(Result<(), AddRefusal>),
    Next(Option<f32>),
}

impl Reply {
    // The number of the refusal that the panel shows, where the reply is one.
    pub fn number(&self) -> Option<u8>
        ensures answer { result ≡ refusal_number self.now }
    {
        match self {
            Reply::Add(Err(refusal)) => Some(refusal.number()),
            Reply::Add(Ok(())) | Reply::Next(_) => None,
        }
    }
}

// For an add 0 or the number of the refusal; for a next the sample's bits or `end`.
impl fmt::Display for Reply {
    ghost output = { λ reply. Some (reply_text reply) };

    #[tactic(auto, using(crate::proofs::Printing::eight_padded))]
    fn fmt<W: fmt::Write>(&self, f: &mut fmt::Formatter<W>) -> fmt::Result {
        match self {
            Reply::Add(Ok(())) => write!(f, "0"),
            Reply::Add(Err(refusal)) => {
                let number = refusal.number();
                write!(f, "{number}")
            }
            Reply::Next(None) => write!(f, "end"),
            Reply::Next(Some(sample)) => {
                let bits = f32_to_bits_with_nan(*sample);
                write!(f, "{bits:08x}")
            }
        }
    }
}
