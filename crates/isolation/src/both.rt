// One list of calls on two mixers.
ghost use Rattle.std.specs.Prelude.{◌≡◌, IfOk, MatchResult};
ghost use Rattle.mixer.specs.Following.{PerformsLaw};
ghost use Rattle.isolation.specs.Both.{IsolatedRuns};

use bank::Bank;
use law::{Call, Reply};
use mixer::Mixer;
use std::alloc::{AllocError, Global};

// The replies of two mixers to the same calls, each a list as `perform` answers it.
#[derive(Drop)]
pub struct BothReplies {
    pub first: Vec<Reply>,
    pub second: Vec<Reply>,
}

// Makes the calls in order on both, and answers the replies of each. Without memory for the replies no call is made, which one
// `perform` after the other could not promise.
pub fn perform_both<P: Bank, Q: Bank>(
    heap: Global,
    first: &mut Mixer<P>,
    second: &mut Mixer<Q>,
    calls: &[Call],
) -> Result<BothReplies, AllocError>
    ensures law { IfOk result (λ rs.
        IsolatedRuns P.lists Q.lists calls.now first.old second.old rs.first.items rs.second.items) }
    ensures first { MatchResult result
        (λ rs. PerformsLaw P.lists calls.now first.old rs.first.items first.new)
        (λ _. first.new ≡ first.old) }
    ensures second { MatchResult result
        (λ rs. PerformsLaw Q.lists calls.now second.old rs.second.items second.new)
        (λ _. second.new ≡ second.old) }
{
    let mut of_first = Vec::with_capacity(heap, calls.len())?;
    let mut of_second = Vec::with_capacity(heap, calls.len())?;
    for call in calls {
        of_first.push_reserved(first.call(*call));
        of_second.push_reserved(second.call(*call));
    }
    Ok(BothReplies {
        first: of_first,
        second: of_second,
    })
}
