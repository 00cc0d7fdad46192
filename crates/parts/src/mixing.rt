// Writing down what a mixer over parts of cells gives.
ghost use Rattle.std.specs.Prelude.{◌≡◌, ℕ, List, [], length, Float};
ghost use Rattle.mixer.specs.Following.{Follows};
ghost use Rattle.joining.specs.Joining.{with_sources};
ghost use Rattle.parts.specs.Cut.{parts_of};
ghost use Rattle.parts.specs.Sums.{adds, Summed};

use crate::Parts;
use bank::Bank;
use bank::bare::BareBank;
use common::format::Format;
use joining::Visitor;
use joining::seventeen::join_all;
use mixer::Mixer;
use recorded::Recorded;

// Cells for answers, and how many were given: the cells are the caller's, so they are no vector.
#[derive(Drop)]
pub(crate) struct Answers<'a> {
    out: &'a mut [f32],
    given: usize,
}

impl Visitor for Answers<'_> {
    ghost visited = { λ shape ls before after. (after.out.ghost_name ≡ before.out.ghost_name) × Summed shape.channels.count ls before.out.now after.out.now after.given };

    fn visit<B: Bank>(&mut self, bank: B) -> B {
        let count = bank.count();
        let mut mixer = Mixer::new(bank);
        add_all(&mut mixer, count);
        self.given = drain(&mut mixer, self.out);
        mixer.into_inner()
    }
}

// Adds the numbers below n, in order: a number is what is added, and no index.
fn add_all<B: Bank>(mixer: &mut Mixer<B>, n: usize)
    ensures law { (m : ℕ) (made : List (List Float)) → Follows B.lists m made [] mixer.old → Follows B.lists m made (adds n) mixer.new }
{
    for i in 0..n {
        let _ = mixer.add(i);
    }
}

// Draws until the end or until the cells are full, and answers how many answers it wrote.
// A loop of its own beside the one over samples: what a mixer gives is told by its calls, and is no list of its own.
fn drain<B: Bank>(mixer: &mut Mixer<B>, out: &mut [f32]) -> usize
    ensures law { (m : ℕ) (made : List (List Float)) → Follows B.lists m made (adds (length made)) mixer.old → Summed m made out.old out.new result }
{
    for (i, cell) in out.iter_mut().enumerate() {
        match mixer.next() {
            Some(sample) => *cell = sample,
            None => return i,
        }
    }
    out.len()
}

// Mixes so many parts of the cells, each part a source in one format, in another format: writes the answers, as many as there is room for.
pub fn mix<K: Recorded>(
    cells: &[K],
    out: &mut [f32],
    format: Format,
    each: usize,
    sources: usize,
    to: Format,
) -> usize
    ensures cells { Summed to.channels.count (with_sources to [] (parts_of K.stands format each sources cells.now)) out.old out.new result }
{
    let mut parts = Parts::new(cells, format, each, sources);
    let mut answers = Answers { out, given: 0 };
    let _bank = join_all(BareBank::new(to), &mut parts, &mut answers);
    answers.given
}
