// Drawing samples into cells.
ghost use Rattle.std.specs.Prelude.{◌≡◌, min, length};
ghost use Rattle.exports.specs.Written.{written};

use source::Samples;

// Draws until the end or until the cells are full, and answers how many samples it wrote.
pub(crate) fn drain<S: Samples>(input: &mut S, out: &mut [f32]) -> usize
    ensures answer { result ≡ min (length out.old) (length (S.samples input.old)) }
    ensures cells { out.new ≡ written (S.samples input.old) out.old }
{
    for (i, cell) in out.iter_mut().enumerate() {
        match input.next() {
            Some(sample) => *cell = sample,
            None => return i,
        }
    }
    out.len()
}
