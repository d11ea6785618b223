//! A shelf of one's own, as an example: four columns of two words, each word kept with its complement.
#![tactic(auto)]

ghost use Rattle.std.specs.Prelude.{◌≡◌, ◌&&◌, nat_lt, nat_le, length};
ghost use Rattle.tip_code.specs.Geometry.{prime_of, stripes_of};
ghost use Rattle.tip_own_shelf.specs.Guarding.{guarded, no_loans, Leaves};
ghost use Rattle.tip_own_shelf.specs.Laws.{guarded_sound, guarded_devices};

use tip_code::geometry::Geometry;
use tip_code::stop::Stop;
use tip_element::word::Word;
use tip_shelf::shelf::{Out, Serviced, Shelf, State};

/// A word and its complement. Where the two do not fit together, one of them is wrong.
#[derive(Clone, Copy, PartialEq, Eq, Debug)]
pub struct Pair {
    pub word: u64,
    pub complement: u64,
}

/// What a device has for its one strip.
#[derive(Clone, Copy, PartialEq, Eq, Debug)]
pub enum Slot {
    Held(Pair, Pair),
    Blank,
    Absent,
}

/// A shelf for p = 3 and one stripe. A word that does not fit its complement is found when it is read: the strip is then out. So the shelf
/// is not steady.
#[derive(Drop)]
pub struct Guarded {
    geometry: Geometry,
    pub slots: [Slot; 4],
    pub ghost prime: { prime_of geometry ≡ 3 },
    pub ghost stripes: { stripes_of geometry ≡ 1 },
    pub ghost four: { length slots ≡ 4 },
}

impl Guarded {
    ghost use Rattle.std.specs.Prelude.{◌≡◌, ℕ, IsOk, IfOk};
    ghost use Rattle.tip_shelf.specs.Meaning.{absent};

    /// The shelf with all strips absent: its devices are to be fitted first.
    pub fn new() -> Result<Guarded, Stop>
        ensures accepted { IsOk result }
        ensures empty { IfOk result (λ s. (i c : ℕ) → (guarded s.slots).strip i c ≡ absent) }
    {
        Ok(Guarded {
            geometry: Geometry::new(3, 1)?,
            slots: [Slot::Absent; 4],
        })
    }
}

impl Shelf for Guarded {
    type Element = Word;

    ghost meaning = { λ s. guarded s.slots };

    ghost lent = { λ s. no_loans };

    ghost performs = { λ s k t. Leaves s.slots k t.slots };

    fn geometry(&self) -> Geometry {
        self.geometry
    }

    fn is_steady(&self) -> bool {
        false
    }

    fn state(&mut self, stripe: usize, column: usize) -> State {
        if !has_strip(stripe, column) {
            return State::Absent;
        }
        match self.slots[column] {
            Slot::Held(_, _) => State::Held,
            Slot::Blank => State::Blank,
            Slot::Absent => State::Absent,
        }
    }

    #[tactic(auto, using(std::proofs::lemmas::Grind::common_steps))]
    fn get(&mut self, stripe: usize, column: usize, row: usize) -> Result<Word, Out> {
        if !has_strip(stripe, column) {
            return Err(Out);
        }
        let pair = match (self.slots[column], row) {
            (Slot::Held(first, _), 0) => first,
            (Slot::Held(_, second), 1) => second,
            _ => return Err(Out),
        };
        if !pair.is_sound() {
            self.slots[column] = Slot::Absent;
            return Err(Out);
        }
        Ok(Word(pair.word))
    }

    fn put(&mut self, stripe: usize, column: usize, row: usize, element: Word) -> Result<(), Out> {
        if !has_strip(stripe, column) {
            return Err(Out);
        }
        self.slots[column] = match (self.slots[column], row) {
            (Slot::Held(_, second), 0) => Slot::Held(Pair::of(element), second),
            (Slot::Held(first, _), 1) => Slot::Held(first, Pair::of(element)),
            _ => return Err(Out),
        };
        Ok(())
    }

    fn erase(&mut self, stripe: usize, column: usize) -> Result<(), Out> {
        if !has_strip(stripe, column) || self.slots[column] == Slot::Absent {
            return Err(Out);
        }
        self.slots[column] = Slot::Blank;
        Ok(())
    }

    fn restore(&mut self, stripe: usize, column: usize, elements: &[Word]) -> Result<(), Out> {
        let [first, second] = elements else {
            return Err(Out);
        };
        if !has_strip(stripe, column) || self.slots[column] != Slot::Blank {
            return Err(Out);
        }
        self.slots[column] = Slot::Held(Pair::of(*first), Pair::of(*second));
        Ok(())
    }

    ghost sound = { λ s. guarded_sound s.slots s.four };
}

impl Serviced for Guarded {
    fn pull(&mut self, device: usize) {
        if device <= 3 {
            self.slots[device] = Slot::Absent;
        }
    }

    fn fit(&mut self, device: usize) -> bool {
        if device > 3 {
            return false;
        }
        if self.slots[device] == Slot::Absent {
            self.slots[device] = Slot::Blank;
        }
        true
    }

    ghost devices = { λ s. guarded_devices s.slots };
}

/// Whether the shelf has a strip there.
fn has_strip(stripe: usize, column: usize) -> bool
    ensures { result ≡ (nat_lt stripe 1 && nat_le column 3) }
{
    stripe < 1 && column <= 3
}

impl Pair {
    ghost use Rattle.std.specs.Prelude.{◌≡◌};
    ghost use Rattle.tip_element.specs.Laws.{Exactly};
    ghost use Rattle.tip_own_shelf.specs.Guarding.{Fits};

    /// The word with its complement.
    fn of(word: Word) -> Pair
        ensures { (result.word ≡ word.0) × Fits result }
    {
        Pair {
            word: word.0,
            complement: !word.0,
        }
    }

    /// Whether the two fit together.
    fn is_sound(self) -> bool
        ensures { Exactly result (Fits self) }
    {
        self.complement == !self.word
    }
}
