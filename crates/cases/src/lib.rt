// What the text of cases is made of: numbers, samples and ramps read from words, the hash of a long list, and why a line has no answer.
#![tactic(auto)]

pub mod fault;
pub mod fnv;
pub mod reading;
