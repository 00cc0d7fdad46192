// Mixes parts of lent cells, each part a source.
#![tactic(auto)]

pub mod mixing;
pub mod queue;

use common::format::Format;

// Parts of so many cells each, and how many of them are still to be handed out, as sources in one format.
#[derive(Drop)]
pub struct Parts<'a, K> {
    cells: &'a [K],
    format: Format,
    each: usize,
    left: usize,
}
