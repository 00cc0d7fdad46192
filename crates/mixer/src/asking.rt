// What a mixer can be asked.
ghost use Rattle.std.specs.Prelude.{◌≡◌, ℕ, List, Float};
ghost use Rattle.law.specs.declared.Call.{Call};
ghost use Rattle.law.specs.Playing.{WhoPlays};
ghost use Rattle.mixer.specs.Following.{Follows};

use crate::Mixer;
use bank::Bank;
use common::format::Format;

impl<B: Bank> Mixer<B> {
    pub fn format(&self) -> Format
        ensures answer { result ≡ B.shape self.now.bank }
    {
        self.bank.format()
    }

    // The number of a source that plays, or none where none does.
    pub fn playing(&self) -> Option<usize>
        ensures law { (m : ℕ) (made : List (List Float)) (h : List Call) → Follows B.lists m made h self.now → WhoPlays m made h result }
    {
        self.table.playing()
    }
}
