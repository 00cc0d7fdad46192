// The lists that a mixer draws from: sources joined one after another, each as its uniform stream in one format.
#![tactic(auto)]

pub mod bare;
pub mod joined;

ghost use Rattle.std.specs.Prelude.{◌≡◌, ◌≤◌, List, [], length, slice_index_or, Float};
ghost use Rattle.common.specs.declared.format.Format.{Format as Shape};
ghost use Rattle.source.specs.Samples.{first};
ghost use Rattle.bank.specs.Banks.{most_lists, drawn_at, OwnStreams};

use common::format::Format;

// No bank has more lists.
pub const MOST_LISTS: usize = 16;

// Numbered lists of samples in one format. Drawing from a number acts on that list alone.
pub trait Bank {
    ghost lists: { Self → List (List Float) };

    ghost shape: { Self → Shape };

    fn format(&self) -> Format
        ensures answer { result ≡ shape self.now };

    fn count(&self) -> usize
        ensures answer { result ≡ length (lists self.now) }
        ensures bound { result ≤ most_lists };

    fn draw(&mut self, i: usize) -> Option<f32>
        ensures answer { result ≡ first (slice_index_or (lists self.old) i []) }
        ensures after { lists self.new ≡ drawn_at (lists self.old) i }
        ensures same { shape self.new ≡ shape self.old }
        ensures law { OwnStreams (shape self.new) (lists self.new) };
}
