// The short worked examples of the rules, proved together as one statement, which the contract of a function that answers yes names.
#![tactic(auto)]

ghost use Rattle.std.specs.Prelude.{◌≡◌, true};
ghost use Rattle.std.specs.List.{AllByRecursion};
ghost use Rattle.figures.specs.Figures.{Holds, figures};

pub fn figures_hold() -> bool
    ensures answer { result ≡ true }
    ensures law { AllByRecursion Holds figures }
{
    true
}
