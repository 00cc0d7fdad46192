// What a reader asks of the law, each answer proved: a function here answers yes, and its contract is the statement.
ghost use Rattle.std.specs.Prelude.{◌≡◌, true};
ghost use Rattle.law.specs.Asked.{RefusedChangesNothing, EarlierStays, AcceptedOnce, StartsAtFrame, EntersOnce, EndsWhenSilent};

#[tactic(auto, using(crate::proofs::Refusals::refused_changes_nothing_lem))]
pub fn refused_changes_nothing() -> bool
    ensures answer { result ≡ true }
    ensures law { RefusedChangesNothing }
{
    true
}

#[tactic(auto, using(crate::proofs::Runs::earlier_stays_lem))]
pub fn earlier_stays() -> bool
    ensures answer { result ≡ true }
    ensures law { EarlierStays }
{
    true
}

pub fn accepted_once() -> bool
    ensures answer { result ≡ true }
    ensures law { AcceptedOnce }
{
    true
}

#[tactic(auto, using(crate::proofs::Starts::starts_at_frame_lem))]
pub fn starts_at_frame() -> bool
    ensures answer { result ≡ true }
    ensures law { StartsAtFrame }
{
    true
}

#[tactic(auto, using(crate::proofs::Terms::enters_once_lem))]
pub fn enters_once() -> bool
    ensures answer { result ≡ true }
    ensures law { EntersOnce }
{
    true
}

#[tactic(auto, using(crate::proofs::Terms::ends_when_silent_lem))]
pub fn ends_when_silent() -> bool
    ensures answer { result ≡ true }
    ensures law { EndsWhenSilent }
{
    true
}
