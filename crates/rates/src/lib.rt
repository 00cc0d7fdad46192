// The arithmetic of rate conversion; its definitions and their lemmas stand in specs/ and proofs/.
#![tactic(auto)]

pub mod math;
