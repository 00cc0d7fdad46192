// Joins any number of sources to a bank, and has a visitor do its work with the bank that came of it.
#![tactic(auto)]

pub mod more;
pub mod seventeen;
pub mod source_list;

ghost use Rattle.std.specs.Prelude.{◌≡◌, ℕ, List, take, drop, Float};
ghost use Rattle.common.specs.declared.format.Format.{Format as Shape};
ghost use Rattle.source.specs.Meanings.{Spans};
ghost use Rattle.source.specs.Samples.{first, rest};
ghost use Rattle.joining.specs.Joining.{with_sources, spans_of};

use bank::Bank;
use source::Source;

// Sources that wait, told by their spans, handed out one by one.
pub trait Queue {
    type Item: Source + Drop;

    ghost waiting: { Self → List Spans };

    fn next_source(&mut self) -> Option<Self::Item>
        ensures answer { spans_of Self.Item.meaning result ≡ first (waiting self.old) }
        ensures after { waiting self.new ≡ rest (waiting self.old) };
}

// What is done with a bank. `visited` says what a visit to a bank of this format and these lists does.
pub trait Visitor {
    ghost visited: { Shape → List (List Float) → Self → Self → Type 0 };

    fn visit<B: Bank>(&mut self, bank: B) -> B
        ensures after { visited (B.shape bank) (B.lists bank) self.old self.new };
}

// How many sources are joined at most is a type, since each joined source makes a bank of another type. The three parameters are of
// three types that are free, so one value of all three would have them all as parameters too.
pub trait Joins {
    ghost most: { ℕ };

    fn join<B: Bank, Q: Queue, V: Visitor>(bank: B, queue: &mut Q, visitor: &mut V) -> B
        ensures law { V.visited (B.shape bank) (with_sources (B.shape bank) (B.lists bank) (take most (Q.waiting queue.old))) visitor.old visitor.new }
        ensures after { Q.waiting queue.new ≡ drop most (Q.waiting queue.old) };
}
