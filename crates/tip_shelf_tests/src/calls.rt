// Calls and answers of a shelf as values, so that one list of calls can be put to shelves of every kind.
use std::alloc::{AllocError, Global};
use tip_element::element::Element;
use tip_element::trace::Trace;
use tip_element::word::Word;
use tip_shelf::shelf::{Serviced, Shelf, State};

/// A kind of element that has one for each number.
pub trait Sample: Element + PartialEq {
    /// The element of a number.
    fn of(number: u64) -> Self;

    /// The number of such an element.
    fn number(self) -> u64;
}

impl Sample for Word {
    fn of(number: u64) -> Word {
        Word(number)
    }

    fn number(self) -> u64 {
        self.0
    }
}

impl Sample for Trace {
    fn of(number: u64) -> Trace {
        Trace {
            low: number,
            high: !number,
        }
    }

    fn number(self) -> u64 {
        self.low
    }
}

/// The elements of these numbers.
pub fn elements<E: Sample>(heap: Global, numbers: &[u64]) -> Result<Vec<E>, AllocError> {
    let mut all = Vec::new(heap);
    for number in numbers {
        all.push(E::of(*number))?;
    }
    Ok(all)
}

/// A call of a shelf. A restore has `count` elements, whose numbers count up from `first`.
#[derive(Clone, Copy, PartialEq, Eq, Debug)]
pub enum Call {
    State {
        stripe: usize,
        column: usize,
    },
    Get {
        stripe: usize,
        column: usize,
        row: usize,
    },
    Put {
        stripe: usize,
        column: usize,
        row: usize,
        number: u64,
    },
    Erase {
        stripe: usize,
        column: usize,
    },
    Restore {
        stripe: usize,
        column: usize,
        count: usize,
        first: u64,
    },
    Pull {
        device: usize,
    },
    Fit {
        device: usize,
    },
}

/// What a shelf answers. `Done` stands for an `Ok` that says no more, and `Out` for an `Err`.
#[derive(Clone, Copy, PartialEq, Eq, Debug)]
pub enum Answer {
    Told(State),
    Got(u64),
    Done,
    Out,
    Pulled,
    Fitted(bool),
}

/// The numbers that a restore counts up.
pub fn counted(heap: Global, count: usize, first: u64) -> Result<Vec<u64>, AllocError> {
    let mut all = Vec::new(heap);
    for step in 0..count {
        all.push(first.wrapping_add(step as u64))?;
    }
    Ok(all)
}

/// The answer of a call that says no more than that it was done.
fn done<T, E>(answer: Result<T, E>) -> Answer
where
    T: Drop,
    E: Drop,
{
    if answer.is_ok() {
        Answer::Done
    } else {
        Answer::Out
    }
}

/// Puts the call to the shelf.
pub fn ask<S: Serviced>(heap: Global, shelf: &mut S, call: Call) -> Result<Answer, AllocError>
where
    S::Element: Sample,
{
    Ok(match call {
        Call::State { stripe, column } => Answer::Told(shelf.state(stripe, column)),
        Call::Get {
            stripe,
            column,
            row,
        } => match shelf.get(stripe, column, row) {
            Ok(element) => Answer::Got(element.number()),
            Err(_) => Answer::Out,
        },
        Call::Put {
            stripe,
            column,
            row,
            number,
        } => done(shelf.put(stripe, column, row, S::Element::of(number))),
        Call::Erase { stripe, column } => done(shelf.erase(stripe, column)),
        Call::Restore {
            stripe,
            column,
            count,
            first,
        } => {
            let elements = elements(heap, &counted(heap, count, first)?)?;
            done(shelf.restore(stripe, column, &elements))
        }
        Call::Pull { device } => {
            shelf.pull(device);
            Answer::Pulled
        }
        Call::Fit { device } => Answer::Fitted(shelf.fit(device)),
    })
}
