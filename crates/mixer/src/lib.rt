// Mixes the sources of a bank: each starts at a whole frame, and an answer is the sum of what plays, in the order of adding.
#![tactic(auto)]

pub mod adding;
pub mod asking;
pub mod mixing;
pub mod performing;
mod table;

use crate::table::Table;
use common::format::ChannelCount;

// Of the answers given, only their number modulo the channels is kept, so that no counter can overflow.
#[derive(Drop)]
pub struct Mixer<B> {
    bank: B,
    channels: ChannelCount,
    phase: u16,
    table: Table,
}
