// Reads cases from standard input, one to a line, and prints the answer to each on a line of its own.
#![tactic(auto)]

mod bank_word;
mod buffer_word;
mod calls;
mod channels_word;
mod conversion;
mod drawing;
mod formats;
mod lists;
mod mixer_word;
mod rate_word;
mod rounds;
mod sources;
mod uniform_word;
mod words;

use crate::bank_word::bank_answer;
use crate::buffer_word::buffer_answer;
use crate::channels_word::channels_answer;
use crate::mixer_word::mixer_answer;
use crate::rate_word::rate_answer;
use crate::uniform_word::uniform_answer;
use cases::fault::Fault;
use std::alloc::Global;
use std::io;
use std::io::{BufRead, BufReader};

// The answer to a line, whose fields single blanks separate.
fn answer(heap: Global, bytes: &[u8]) -> Result<String, Fault> {
    let line = std::str::from_utf8(bytes).map_err(|_| Fault::NotText)?;
    let all: Vec<&str> = line.split(' ').collect(heap)?;
    let [word, fields @ ..] = all.as_slice() else {
        return Err(Fault::NoSuchWord);
    };
    // from a word to its function, each of which takes the fields behind it and answers a text
    match *word {
        "bank" => bank_answer(heap, fields),
        "buffer" => buffer_answer(heap, fields),
        "channels" => channels_answer(heap, fields),
        "mixer" => mixer_answer(heap, fields),
        "rate" => rate_answer(heap, fields),
        "uniform" => uniform_answer(heap, fields),
        _ => Err(Fault::NoSuchWord),
    }
}

// Empty lines, and those that begin with a hash sign, have no answer.
fn main(rt: HostRuntime) -> io::Result<()> {
    let heap = rt.alloc();
    for line in BufReader::new(heap, rt.stdin())?.split(heap, b'\n') {
        let line = line?;
        if matches!(line.first(), None | Some(b'#')) {
            continue;
        }
        match answer(heap, line.as_slice()) {
            Ok(text) => println!(rt; "{text}")?,
            Err(fault) => println!(rt; "{fault}")?,
        }
    }
    Ok(())
}
