// The calls of a list, and what they answer.
use tip_code::stop::Stop;

/// A call on an array, with its arguments.
#[derive(Clone, Copy, PartialEq, Eq, Debug)]
pub enum Call<E> {
    /// Gives the element of a place.
    Read {
        stripe: usize,
        place: usize,
    },
    /// Sets the element of a place.
    Write {
        stripe: usize,
        place: usize,
        element: E,
    },
    /// Restores the blank strips of a stripe.
    Rebuild {
        stripe: usize,
    },
    /// Counts the chains of a stripe that are whole, and those of them that fail.
    Check {
        stripe: usize,
    },
    /// Takes a device away.
    Pull {
        device: usize,
    },
    /// Puts a device in.
    Fit {
        device: usize,
    },
}

/// What a check counts of a stripe.
#[derive(Clone, Copy, PartialEq, Eq, Debug)]
pub struct Checks {
    /// How many chains lie wholly in held strips.
    pub whole: usize,
    /// How many of these do not join to zero.
    pub failing: usize,
}

/// What an accepted call answers.
#[derive(Clone, Copy, PartialEq, Eq, Debug)]
pub enum Answer<E> {
    /// A read: the element of the place.
    Read(E),
    /// A write: how many strips of the stripe are out.
    Written(usize),
    /// A rebuild: how many strips were blank and are held.
    Rebuilt(usize),
    /// A check: what it counted.
    Checked(Checks),
    /// A pull has no answer but that it was accepted.
    Pulled,
    /// A fit: whether the device was fitted.
    Fitted(bool),
}

/// An answer, or the stop by which the call was refused.
pub type Outcome<E> = Result<Answer<E>, Stop>;
