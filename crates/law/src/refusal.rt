// Why a source is not added, and the number of each refusal.
ghost use Rattle.std.specs.Prelude.{◌≡◌};
ghost use Rattle.law.specs.Numbers.{number_of};

#[derive(Clone, Copy, Debug, PartialEq, Eq, Hash)]
pub enum AddRefusal {
    NoSuchSource,
    AlreadyAdded,
}

impl AddRefusal {
    // The number that the panel shows.
    pub fn number(&self) -> u8
        ensures answer { result ≡ number_of self.now }
    {
        match self {
            AddRefusal::NoSuchSource => 4,
            AddRefusal::AlreadyAdded => 5,
        }
    }
}
