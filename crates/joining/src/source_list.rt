// Sources in a queue, handed out from its front.
ghost use Rattle.std.specs.Prelude.{◌≡◌, map};

use crate::Queue;
use source::Source;
use std::collections::VecDeque;

#[derive(Drop)]
pub struct SourceList<S> {
    sources: VecDeque<S>,
}

impl<S: Source + Drop> SourceList<S> {
    pub fn new(sources: Vec<S>) -> SourceList<S>
        ensures answer { result.sources.items ≡ sources.items }
    {
        SourceList {
            sources: VecDeque::from(sources),
        }
    }
}

impl<S: Source + Drop> Queue for SourceList<S> {
    type Item = S;

    ghost waiting = { λ q. map (λ s. (S.meaning s).spans) q.sources.items };

    fn next_source(&mut self) -> Option<S> {
        self.sources.pop_front()
    }
}
