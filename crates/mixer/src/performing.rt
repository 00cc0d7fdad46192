// Making a list of calls on a mixer.
ghost use Rattle.std.specs.Prelude.{◌≡◌, MatchResult};
ghost use Rattle.mixer.specs.Following.{KeepsLaw, PerformsLaw};

use crate::Mixer;
use bank::Bank;
use law::{Call, Reply};
use std::alloc::{AllocError, Global};

impl<B: Bank> Mixer<B> {
    // Makes one call.
    pub fn call(&mut self, call: Call) -> Reply
        ensures law { KeepsLaw B.lists call self.old result self.new }
    {
        match call {
            Call::Add(number) => Reply::Add(self.add(number)),
            Call::Next => Reply::Next(self.next()),
        }
    }

    // Makes the calls in order, and answers the reply to each. Without memory for the replies no call is made.
    pub fn perform(&mut self, heap: Global, calls: &[Call]) -> Result<Vec<Reply>, AllocError>
        ensures law { MatchResult result
            (λ rs. PerformsLaw B.lists calls.now self.old rs.items self.new)
            (λ _. self.new ≡ self.old) }
    {
        let mut replies = Vec::with_capacity(heap, calls.len())?;
        for call in calls {
            replies.push_reserved(self.call(*call));
        }
        Ok(replies)
    }
}
