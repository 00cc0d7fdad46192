// The types that every module shares: formats with their limits, durations, and what is refused of a format.
#![tactic(auto)]

pub mod duration;
pub mod format;
pub mod refusal;
