// Joining one source after another, by a type that counts them.
ghost use Rattle.std.specs.Prelude.{◌≡◌, zero, suc};

use crate::{Joins, Queue, Visitor};
use bank::Bank;
use bank::joined::Joined;

// Joins no source.
pub struct NoMore;

// Joins one source, and then as many as N.
pub struct OneMore<N>(N);

impl Joins for NoMore {
    ghost most = { zero };

    fn join<B: Bank, Q: Queue, V: Visitor>(bank: B, _queue: &mut Q, visitor: &mut V) -> B {
        visitor.visit(bank)
    }
}

impl<N: Joins> Joins for OneMore<N> {
    ghost most = { suc N.most };

    fn join<B: Bank, Q: Queue, V: Visitor>(bank: B, queue: &mut Q, visitor: &mut V) -> B {
        match queue.next_source() {
            None => visitor.visit(bank),
            Some(source) => {
                let joined = N::join(Joined::new(bank, source), queue, visitor);
                let (bank, _source) = joined.into_inner();
                bank
            }
        }
    }
}
