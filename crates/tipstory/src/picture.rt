// A picture of a stripe: how its strips are, column by column.
ghost use Rattle.std.specs.Prelude.{◌≡◌, ◌+◌, vec_len};

use std::alloc::{AllocError, Global};
use std::fmt;
use tip_array::array::Array;
use tip_shelf::shelf::{Shelf, State};

/// What the letters of a picture mean.
pub const LEGEND: &str = "a letter for each column, from column 0 on: H held, b blank, . absent";

/// The states of the strips of a stripe, by columns, and how many strips are in each.
#[derive(Drop)]
pub struct Picture {
    stripe: usize,
    states: Vec<State>,
    held: usize,
    blank: usize,
    absent: usize,
    ghost total: { held + blank + absent ≡ vec_len states },
}

/// The letter for a state.
fn letter(state: State) -> char {
    match state {
        State::Held => 'H',
        State::Blank => 'b',
        State::Absent => '.',
    }
}

/// The word for a state.
pub fn name(state: State) -> &'static str {
    match state {
        State::Held => "held",
        State::Blank => "blank",
        State::Absent => "absent",
    }
}

impl Picture {
    /// The picture of a stripe as it is now.
    pub fn of<S: Shelf>(
        heap: Global,
        array: &mut Array<S>,
        stripe: usize,
    ) -> Result<Picture, AllocError> {
        let mut picture = Picture {
            stripe,
            states: Vec::new(heap),
            held: 0,
            blank: 0,
            absent: 0,
        };
        for column in 0..=array.geometry().prime().number {
            picture.add(array.state(stripe, column))?;
        }
        Ok(picture)
    }

    /// Adds the strip of the next column.
    fn add(&mut self, state: State) -> Result<(), AllocError> {
        self.states.push(state)?;
        match state {
            State::Held => self.held += 1,
            State::Blank => self.blank += 1,
            State::Absent => self.absent += 1,
        }
        Ok(())
    }

    /// How many strips are out.
    fn out(&self) -> usize
        ensures { self.now.held + result ≡ vec_len self.now.states }
    {
        self.blank + self.absent
    }

    /// Lists the columns whose strips are out.
    fn list_out<W: fmt::Write>(&self, f: &mut fmt::Formatter<W>) -> fmt::Result {
        let mut separator = match self.out() {
            0 => return f.write_str("none"),
            1 => "column ",
            _ => "columns ",
        };
        for (column, state) in self.states.iter().enumerate() {
            if *state != State::Held {
                write!(f, "{separator}{column}")?;
                separator = ", ";
            }
        }
        Ok(())
    }
}

/// As "stripe 0: [H . H b H H]   held 4, blank 1, absent 1   out: columns 1, 3".
impl fmt::Display for Picture {
    fn fmt<W: fmt::Write>(&self, f: &mut fmt::Formatter<W>) -> fmt::Result {
        let Picture {
            stripe,
            states,
            held,
            blank,
            absent,
        } = self;
        write!(f, "stripe {stripe}: ")?;
        let mut separator = "[";
        for state in states {
            write!(f, "{separator}{}", letter(*state))?;
            separator = " ";
        }
        write!(f, "]   held {held}, blank {blank}, absent {absent}   out: ")?;
        self.list_out(f)
    }
}
