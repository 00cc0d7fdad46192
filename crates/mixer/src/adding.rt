// Making a mixer, adding sources to it, and taking it apart again.
ghost use Rattle.std.specs.Prelude.{◌≡◌, false, [], is_ok};
ghost use Rattle.law.specs.declared.Call.TheVariants.{Add};
ghost use Rattle.law.specs.declared.Reply.TheVariants.{Add as AddReply};
ghost use Rattle.mixer.specs.Following.{Follows, KeepsLaw};

use crate::Mixer;
use crate::mixing::FRAME_START;
use crate::table::Table;
use bank::Bank;
use law::refusal::AddRefusal;

impl<B: Bank> Mixer<B> {
    // A mixer in the bank's format, with nothing added and no answer given.
    pub fn new(bank: B) -> Mixer<B>
        ensures law { Follows B.lists (B.shape bank).channels.count (B.lists bank) [] result }
        ensures bank { result.bank ≡ bank }
    {
        let channels = bank.format().channels;
        Mixer {
            bank,
            channels,
            phase: FRAME_START,
            table: Table::new(),
        }
    }

    // Source `number` is to play from the next whole frame on. Each is added once.
    pub fn add(&mut self, number: usize) -> Result<(), AddRefusal>
        ensures law { KeepsLaw B.lists (Add number) self.old (AddReply result) self.new }
        ensures refused { is_ok result ≡ false → self.new ≡ self.old }
        ensures bank { self.new.bank ≡ self.old.bank }
    {
        if number >= self.bank.count() {
            return Err(AddRefusal::NoSuchSource);
        }
        self.table.add(number)
    }

    // Gives the bank back, with what was not drawn from it yet.
    pub fn into_inner(self) -> B
        ensures answer { result ≡ self.bank }
    {
        let Mixer { bank, .. } = self;
        bank
    }
}
