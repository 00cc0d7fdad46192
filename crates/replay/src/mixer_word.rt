// mixer CHANNELS RATE SOURCE+SOURCE.. OPS: the replies of a mixer over these sources to a list of calls.
ghost use Rattle.std.specs.Prelude.{◌≡◌, [], IfOk};
ghost use Rattle.law.specs.Told.{Told};

use crate::formats::FormatNumbers;
use crate::{calls, sources};
use bank::Bank;
use bank::bare::BareBank;
use cases::fault::Fault;
use joining::Visitor;
use joining::seventeen::join_all;
use joining::source_list::SourceList;
use law::{Call, Reply};
use mixer::Mixer;
use source::Source;
use std::alloc::{AllocError, Global};

// Makes the calls on a mixer over the bank.
#[derive(Drop)]
struct Mix {
    calls: Vec<Call>,
    replies: Result<Vec<Reply>, AllocError>,
}

impl Visitor for Mix {
    ghost visited = { λ shape ls before after. IfOk after.replies (λ rs. Told shape.channels.count ls [] before.calls.items rs.items) };

    fn visit<B: Bank>(&mut self, bank: B) -> B {
        let mut mixer = Mixer::new(bank);
        self.replies = mixer.perform(*self.calls.allocator(), self.calls.as_slice());
        mixer.into_inner()
    }
}

pub(crate) fn mixer_answer(heap: Global, fields: &[&str]) -> Result<String, Fault> {
    let [channels, rate, words, ops] = fields else {
        return Err(Fault::WrongFields);
    };
    let numbers = FormatNumbers::read(channels, rate)?;
    let read = sources::sources(heap, words)?;
    let mut mix = Mix {
        calls: calls::calls(heap, ops)?,
        replies: Ok(Vec::new(heap)),
    };
    let format = numbers.judged()?;
    let mut queue = SourceList::new(read);
    let _bank = join_all(BareBank::new(format), &mut queue, &mut mix);
    let replies = mix.replies?;
    Ok(calls::answers(heap, mix.calls.as_slice(), replies.as_slice())?)
}
