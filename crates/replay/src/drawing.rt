// Drawing from a list of samples.
ghost use Rattle.std.specs.Prelude.{◌≡◌, ◌-◌, ◌^◌, ◌≤◌, min, [], length, drop, nat_le};

use source::Samples;

// Draws n samples, and answers whether there were as many, which `discard` does not.
pub(crate) fn draw<S: Samples>(input: &mut S, n: usize) -> bool
    ensures answer { result ≡ nat_le n (length (S.samples input.old)) }
    ensures after { S.samples input.new ≡ drop n (S.samples input.old) }
{
    for _ in 0..n {
        if input.next().is_none() {
            return false;
        }
    }
    true
}

// Draws all samples, and answers how many there were: n counts them, and is no index.
pub(crate) fn count<S: Samples>(input: &mut S) -> usize
    ensures answer { result ≡ min (length (S.samples input.old)) (2 ^ 64 - 1) }
    ensures after { S.samples input.new ≡ [] }
{
    let mut n: usize = 0;
    while input.next().is_some() {
        n = n.saturating_add(1);
    }
    n
}
