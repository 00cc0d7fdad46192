// Tests on examples, with values worked out from the rules.
#![tactic(auto)]

#[cfg(test)]
mod buffers;
#[cfg(test)]
mod conversions;
#[cfg(test)]
mod formats;
#[cfg(test)]
mod hashes;
