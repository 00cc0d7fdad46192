// Calls on a mixer, read from a word, and their replies written as one: n=ANSWER for a next and aI=ANSWER for an add of number I.
use crate::words;
use cases::fault::Fault;
use cases::reading;
use law::{Call, Reply};
use std::alloc::{AllocError, Global};
use std::fmt;

// `n` for a next, and `a` with a number for an add.
fn call(word: &str) -> Result<Call, Fault> {
    if word == "n" {
        return Ok(Call::Next);
    }
    match word.strip_prefix('a') {
        Some(number) => Ok(Call::Add(reading::number(number)? as usize)),
        None => Err(Fault::NotACall),
    }
}

// `-` for none, or calls joined by commas.
pub(crate) fn calls(heap: Global, word: &str) -> Result<Vec<Call>, Fault> {
    words::parts(heap, word, ',', |part| call(part))
}

// Calls with their replies, as they are written in one word. They are written one by one and not gathered first, so that an answer needs
// no more memory than its text.
#[derive(Drop)]
struct Answered<'a> {
    calls: &'a [Call],
    replies: &'a [Reply],
}

impl fmt::Display for Answered<'_> {
    fn fmt<W: fmt::Write>(&self, f: &mut fmt::Formatter<W>) -> fmt::Result {
        if self.calls.is_empty() {
            return f.write_str("-");
        }
        for (i, (call, reply)) in self.calls.iter().zip(self.replies).enumerate() {
            if i > 0 {
                f.write_str(",")?;
            }
            match call {
                Call::Add(number) => write!(f, "a{number}={reply}")?,
                Call::Next => write!(f, "n={reply}")?,
            }
        }
        Ok(())
    }
}

// `-` for none, or each call with its reply, joined by commas.
pub(crate) fn answers(
    heap: Global,
    calls: &[Call],
    replies: &[Reply],
) -> Result<String, AllocError> {
    format!(in heap; "{}", Answered { calls, replies })
}
