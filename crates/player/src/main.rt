// A player with one short recording: each key that is read adds a source or draws an answer, and each reply is printed.
#![tactic(auto)]

mod keys;
mod lines;
mod play;

use crate::play::Failure;
use common::format::Format;

const CHANNELS: u16 = 2;

const RATE: u32 = 48_000;

fn main(rt: HostRuntime) -> Result<(), Failure> {
    let heap = rt.alloc();
    let format = Format::new(CHANNELS, RATE)?;
    let keys = keys::read(&rt)?;
    let calls = keys::calls(heap, keys.as_slice())?;
    let recording = [0.5f32, 0.25];
    let replies = play::play(heap, format, &recording, calls.as_slice())?;
    lines::print_all(&rt, calls.as_slice(), replies.as_slice())?;
    Ok(())
}
