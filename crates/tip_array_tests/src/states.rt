// The states of all strips of an array.
use std::alloc::{AllocError, Global};
use tip_array::array::Array;
use tip_shelf::shelf::{Shelf, State};

/// The states of all strips, stripe by stripe.
#[derive(Drop, PartialEq, Debug)]
pub struct States {
    pub stripes: Vec<Vec<State>>,
}

impl States {
    /// Asks for them.
    pub fn of<S: Shelf>(heap: Global, array: &mut Array<S>) -> Result<States, AllocError> {
        let geometry = array.geometry();
        let mut stripes = Vec::new(heap);
        for stripe in 0..geometry.stripes() {
            let mut columns = Vec::new(heap);
            for column in 0..=geometry.prime().number {
                columns.push(array.state(stripe, column))?;
            }
            stripes.push(columns)?;
        }
        Ok(States { stripes })
    }

    /// Those of a stripe, or none beyond the last.
    pub fn stripe(&self, stripe: usize) -> &[State] {
        match self.stripes.get(stripe) {
            Some(states) => states.as_slice(),
            None => &[],
        }
    }

    /// How many strips of a stripe are out.
    pub fn outs(&self, stripe: usize) -> usize {
        count_out(self.stripe(stripe))
    }

    /// How many strips are out in all.
    pub fn all_outs(&self) -> usize {
        let mut count = 0usize;
        for states in &self.stripes {
            count = count.saturating_add(count_out(states));
        }
        count
    }

    /// Whether a column of a stripe is out, and more than three are.
    pub fn are_lost(&self, stripe: usize, column: Option<usize>) -> bool {
        let is_out = column.is_some_and(|column| !is_held(self.stripe(stripe), column));
        is_out && self.outs(stripe) > 3
    }
}

/// How many of these are out.
fn count_out(states: &[State]) -> usize {
    states.iter().filter(|state| **state != State::Held).count()
}

/// Whether the strip of a column is held.
pub fn is_held(states: &[State], column: usize) -> bool {
    states.get(column) == Some(&State::Held)
}
