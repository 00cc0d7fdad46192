// What the player prints: a line for each call.
use law::{Call, Reply};
use std::io;

// `add`, the number, and 0 or the refusal; or the answer's number, and its bits or `end`.
pub(crate) fn print_all(rt: &impl Print, calls: &[Call], replies: &[Reply]) -> io::Result<()> {
    let mut answers = 0u64;
    for (call, reply) in calls.iter().zip(replies.iter()) {
        match call {
            Call::Add(number) => println!(rt; "add {number} {reply}")?,
            Call::Next => {
                println!(rt; "{answers} {reply}")?;
                answers = answers.saturating_add(1);
            }
        }
    }
    Ok(())
}
