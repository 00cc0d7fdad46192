// The mixer's table: for each source a record of where it stands, and the sources' numbers in the order of adding.
ghost use Rattle.std.specs.Prelude.{◌≡◌, ℕ, suc, ◌<◌, ◌≤◌, true, false, List, [], ◌∷◌, ◌++◌, map, length, replicate, is_ok, slice_index_or, slice_set, Float};
ghost use Rattle.std.specs.List.{All, find};
ghost use Rattle.law.specs.declared.Call.{Call};
ghost use Rattle.law.specs.declared.Call.TheVariants.{Add};
ghost use Rattle.law.specs.Mixing.{answers, terms, sum_or_end, verdict};
ghost use Rattle.bank.specs.Banks.{most_lists};
ghost use Rattle.mixer.specs.Places.{idle, begun, in_state, entered};
ghost use Rattle.mixer.specs.Turns.{is_playing, given, turned, left};

use crate::mixing::plus_term;
use arrayvec::ArrayVec;
use bank::{Bank, MOST_LISTS};
use law::refusal::AddRefusal;

// Where a source stands; the number is its place in the order of adding.
#[derive(Clone, Copy)]
pub enum State {
    Idle,
    Waiting(usize),
    Playing(usize),
    Ended,
}

#[derive(Clone, Copy)]
pub struct Place {
    state: State,
}

impl Place {
    fn is_playing(&self) -> bool
        ensures answer { result ≡ is_playing self.now.state }
    {
        matches!(self.state, State::Playing(_))
    }

    // Whoever was not added yet waits, the k-th in the order of adding.
    fn enter(&mut self, k: usize) -> Result<(), AddRefusal>
        ensures answer { result ≡ entered self.old.state }
        ensures after { is_ok result ≡ true → self.new ≡ in_state (State.Waiting k) }
        ensures refused { is_ok result ≡ false → self.new ≡ self.old }
    {
        match self.state {
            State::Idle => {
                self.state = State::Waiting(k);
                Ok(())
            }
            _ => Err(AddRefusal::AlreadyAdded),
        }
    }

    // Who waits begins to play.
    fn start(&mut self)
        ensures after { self.new ≡ begun self.old }
    {
        if let State::Waiting(k) = self.state {
            self.state = State::Playing(k);
        }
    }

    // The turn of the source with this number: if it plays, it gives its next sample or is found ended.
    fn turn<B: Bank>(&mut self, bank: &mut B, number: usize) -> Option<f32>
        ensures answer { result ≡ given self.old.state (slice_index_or (B.lists bank.old) number []) }
        ensures place { self.new ≡ in_state (turned self.old.state (slice_index_or (B.lists bank.old) number [])) }
        ensures lists { B.lists bank.new ≡ slice_set (B.lists bank.old) number (left self.old.state (slice_index_or (B.lists bank.old) number [])) }
        ensures same { B.shape bank.new ≡ B.shape bank.old }
    {
        if !self.is_playing() {
            return None;
        }
        let term = bank.draw(number);
        if term.is_none() {
            self.state = State::Ended;
        }
        term
    }
}

#[derive(Drop)]
pub struct Table {
    places: [Place; MOST_LISTS],
    order: ArrayVec<usize, MOST_LISTS>,
    ghost as_many: { length places ≡ most_lists },
    ghost numbers: { All (λ n. n < most_lists) order.items },
}

impl Table {
    ghost use Rattle.mixer.specs.Following.{Partway, Rests};

    pub(crate) fn new() -> Table
        ensures places { result.places ≡ replicate most_lists idle }
        ensures order { result.order.items ≡ [] }
    {
        Table {
            places: [Place { state: State::Idle }; MOST_LISTS],
            order: ArrayVec::new(),
        }
    }

    // Source `number` is next in the order of adding, and waits.
    pub(crate) fn add(&mut self, number: usize) -> Result<(), AddRefusal>
        requires { number < most_lists }
        ensures law { (m : ℕ) (made lists : List (List Float)) (h : List Call) → 1 ≤ m → number < length made → length made ≤ most_lists →
            Rests m made h self.old.places self.old.order.items lists →
            (result ≡ verdict (length made) number h) × Rests m made (h ++ Add number ∷ []) self.new.places self.new.order.items lists }
        ensures refused { is_ok result ≡ false → self.new ≡ self.old }
    {
        // Lent here and not by a method of the table: no such loan of an array's element can be proved to end in the array.
        let place = &mut self.places[number];
        place.enter(self.order.len())?;
        // There is always room: no number is added twice.
        if !self.order.is_full() {
            self.order.push(number);
        }
        Ok(())
    }

    // The number of a source that plays, or none where none does. A number is a source's, and each source has its place.
    pub(crate) fn playing(&self) -> Option<usize>
        ensures answer { result ≡ find (λ number. is_playing (slice_index_or self.now.places number idle).state) self.now.order.items }
    {
        self.order
            .as_slice()
            .iter()
            .copied()
            .find(|&number| self.places[number].is_playing())
    }

    // Every source that waits begins to play.
    pub(crate) fn start(&mut self)
        ensures places { self.new.places ≡ map begun self.old.places }
        ensures order { self.new.order ≡ self.old.order }
    {
        for place in self.places.iter_mut() {
            place.start();
        }
    }

    // Each source has its turn, in the order of adding: the sum of what they give, or none where none gives a sample.
    pub(crate) fn turns<B: Bank>(&mut self, bank: &mut B) -> Option<f32>
        ensures law { (m : ℕ) (made : List (List Float)) (h : List Call) →
            Partway m made h (suc (answers h)) (λ _. answers h) self.old.places self.old.order.items (B.lists bank.old) →
            (result ≡ sum_or_end (terms m made h (answers h)))
            × Partway m made h (suc (answers h)) (λ _. suc (answers h)) self.new.places self.new.order.items (B.lists bank.new) }
        ensures same { B.shape bank.new ≡ B.shape bank.old }
    {
        let Table { places, order } = self;
        let order = order.as_slice();
        let mut sum = None;
        for &number in order {
            let term = places[number].turn(bank, number);
            sum = plus_term(sum, term);
        }
        sum
    }
}
