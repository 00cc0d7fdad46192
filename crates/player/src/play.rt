// One recording in the mixer's format, mixed under a list of calls.
ghost use Rattle.std.specs.Prelude.{◌≡◌, [], ◌∷◌, map, IfOk};
ghost use Rattle.law.specs.Told.{Told};

use bank::Bank;
use bank::bare::BareBank;
use bank::joined::Joined;
use buffer::SamplesBuffer;
use buffer::refusal::BufferRefusal;
use common::format::Format;
use common::refusal::FormatRefusal;
use law::{Call, Reply};
use mixer::Mixer;
use recorded::Recorded;
use std::alloc::{AllocError, Global};
use std::io;

// Why a player stops before its last key.
#[derive(Debug, Drop)]
pub enum Failure {
    Format(FormatRefusal),
    Buffer(BufferRefusal),
    NoMemory,
    Input,
}

// One for each error that `?` meets here.
impl From<AllocError> for Failure {
    fn from(_error: AllocError) -> Failure {
        Failure::NoMemory
    }
}

impl From<io::Error> for Failure {
    fn from(_error: io::Error) -> Failure {
        Failure::Input
    }
}

impl From<FormatRefusal> for Failure {
    fn from(refusal: FormatRefusal) -> Failure {
        Failure::Format(refusal)
    }
}

impl From<BufferRefusal> for Failure {
    fn from(refusal: BufferRefusal) -> Failure {
        Failure::Buffer(refusal)
    }
}

// The replies of a mixer in a format over one recording in that format.
pub(crate) fn play<K: Recorded>(
    heap: Global,
    format: Format,
    cells: &[K],
    calls: &[Call],
) -> Result<Vec<Reply>, Failure>
    ensures law { IfOk result (λ rs. Told format.channels.count (map K.stands cells.now ∷ []) [] calls.now rs.items) }
{
    let recording = SamplesBuffer::new(format, cells)?;
    let mut mixer = Mixer::new(Joined::new(BareBank::new(format), recording));
    Ok(mixer.perform(heap, calls)?)
}
