// Drawing from a mixer: at a frame's start the waiting sources begin, and each that plays has its turn, in the order of adding.
ghost use Rattle.std.specs.Prelude.{◌≡◌, ℕ, suc, ◌%◌, List, Float};
ghost use Rattle.law.specs.declared.Call.{Call};
ghost use Rattle.law.specs.declared.Call.TheVariants.{Next};
ghost use Rattle.law.specs.declared.Reply.TheVariants.{Next as NextReply};
ghost use Rattle.law.specs.Mixing.{answers};
ghost use Rattle.mixer.specs.Following.{Follows, KeepsLaw, Partway};
ghost use Rattle.mixer.specs.Turns.{plus};

use crate::Mixer;
use bank::Bank;
use common::format::ChannelCount;

// The phase at which a frame starts.
pub(crate) const FRAME_START: u16 = 0;

// A sum with one more term, if there is one.
pub(crate) fn plus_term(sum: Option<f32>, term: Option<f32>) -> Option<f32>
    ensures answer { result ≡ plus sum term }
{
    match (sum, term) {
        (sum, None) => sum,
        (None, Some(x)) => Some(0.0 + x),
        (Some(sum), Some(x)) => Some(sum + x),
    }
}

// The place in a frame that follows another.
fn phase_after(phase: u16, channels: ChannelCount) -> u16
    ensures answer { (q : ℕ) → phase ≡ q % channels.count → result ≡ suc q % channels.count }
{
    if phase < channels.get() - 1 {
        phase + 1
    } else {
        FRAME_START
    }
}

impl<B: Bank> Mixer<B> {
    // At a frame's start the waiting sources begin. What stays as it was is a line each: a name for it would say no more.
    fn start(&mut self)
        ensures law { (m : ℕ) (made : List (List Float)) (h : List Call) → Follows B.lists m made h self.old →
            Partway m made h (suc (answers h)) (λ _. answers h) self.new.table.places self.new.table.order.items (B.lists self.new.bank) }
        ensures bank { self.new.bank ≡ self.old.bank }
        ensures phase { self.new.phase ≡ self.old.phase }
        ensures channels { self.new.channels ≡ self.old.channels }
    {
        if self.phase == FRAME_START {
            self.table.start();
        }
    }

    // The next answer: the sum of what the playing sources give, or the end where none gives a sample.
    pub fn next(&mut self) -> Option<f32>
        ensures law { KeepsLaw B.lists Next self.old (NextReply result) self.new }
        ensures same { B.shape self.new.bank ≡ B.shape self.old.bank }
    {
        self.start();
        let sum = self.table.turns(&mut self.bank);
        let phase = phase_after(self.phase, self.channels);
        self.phase = phase;
        sum
    }
}
