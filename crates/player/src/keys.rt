// The keys, and the calls that they ask for.
ghost use Rattle.std.specs.Prelude.{◌≡◌, IfOk};
ghost use Rattle.player.specs.Keys.{asked, all_asked};

use law::Call;
use std::alloc::{AllocError, Global};
use std::io;
use std::io::Read;

// No more keys are read.
const MOST_KEYS: u64 = 4_096;

pub(crate) fn read(rt: &HostRuntime) -> io::Result<Vec<u8>> {
    let mut keys = Vec::new(rt.alloc());
    rt.stdin().take(MOST_KEYS).read_to_end(&mut keys)?;
    Ok(keys)
}

// A digit adds that number, `n` draws, and another key asks for nothing.
fn call(key: u8) -> Option<Call>
    ensures answer { result ≡ asked key }
{
    match key {
        b'n' => Some(Call::Next),
        b'0'..=b'9' => Some(Call::Add((key - b'0') as usize)),
        _ => None,
    }
}

pub(crate) fn calls(heap: Global, keys: &[u8]) -> Result<Vec<Call>, AllocError>
    ensures answer { IfOk result (λ v. v.items ≡ all_asked keys.now) }
{
    keys.iter().filter_map(|key| call(*key)).collect(heap)
}
