// Joining as many sources as a bank can have lists, and one more.
ghost use Rattle.std.specs.Prelude.{◌≡◌, suc, drop};
ghost use Rattle.bank.specs.Banks.{most_lists};
ghost use Rattle.joining.specs.Joining.{with_sources};

use crate::more::{NoMore, OneMore};
use crate::{Joins, Queue, Visitor};
use bank::Bank;

type FourMore<N> = OneMore<OneMore<OneMore<OneMore<N>>>>;

type SixteenMore<N> = FourMore<FourMore<FourMore<FourMore<N>>>>;

type Seventeen = SixteenMore<OneMore<NoMore>>;

// Joins the sources that wait. Seventeen are taken and the others wait on: no bank has a number for more.
pub fn join_all<B: Bank, Q: Queue, V: Visitor>(bank: B, queue: &mut Q, visitor: &mut V) -> B
    ensures law { V.visited (B.shape bank) (with_sources (B.shape bank) (B.lists bank) (Q.waiting queue.old)) visitor.old visitor.new }
    ensures after { Q.waiting queue.new ≡ drop (suc most_lists) (Q.waiting queue.old) }
{
    <Seventeen as Joins>::join(bank, queue, visitor)
}
