// A scoreboard: what each place of an array is to read as, kept by the tests.
use crate::samples::{Sample, filled, set};
use crate::shape::Shape;
use crate::states::is_held;
use std::alloc::{AllocError, Global};
use std::process::Abort;
use std::test::Fail;
use tip_array::calls::{Answer, Call, Checks, Outcome};
use tip_code::chain::Direction;
use tip_code::encode::encode;
use tip_code::geometry::Geometry;
use tip_shelf::shelf::{Shelf, State};

/// The elements of all places, stripe by stripe.
#[derive(Drop)]
pub struct Scoreboard<E> {
    pub shape: Shape,
    stripes: Vec<Vec<E>>,
}

impl<E: Sample> Scoreboard<E> {
    /// The scoreboard of a formatted array.
    pub fn zero(heap: Global, shape: Shape) -> Result<Scoreboard<E>, AllocError> {
        let mut stripes = Vec::new(heap);
        for _ in 0..shape.stripes {
            stripes.push(filled(heap, E::zero(), shape.places())?)?;
        }
        Ok(Scoreboard { shape, stripes })
    }

    /// The element of a place.
    pub fn element(&self, stripe: usize, place: usize) -> E {
        let elements = self.stripes.get(stripe);
        match elements.and_then(|elements| elements.get(place)) {
            Some(element) => *element,
            None => E::zero(),
        }
    }

    /// Takes down what a call did.
    pub fn note(&mut self, call: &Call<E>, outcome: &Outcome<E>) {
        let Call::Write {
            stripe,
            place,
            element,
        } = *call
        else {
            return;
        };
        if let (Ok(Answer::Written(_)), Some(elements)) = (outcome, self.stripes.get_mut(stripe)) {
            set(elements, place, element);
        }
    }

    /// The stripe buffer of a stripe.
    pub fn encoding(&self, heap: Global, stripe: usize) -> Result<Vec<E>, Fail> {
        let geometry = Geometry::new(self.shape.p, self.shape.stripes)?;
        let mut cells = filled(heap, E::zero(), self.shape.cells())?;
        let elements = self.stripes.get(stripe).ok_or("no such stripe")?;
        encode(geometry, elements, &mut cells)?;
        Ok(cells)
    }
}

/// The join of a chain of a stripe buffer, or nothing where a strip of the chain is out.
fn chain_join<E: Sample>(
    shape: Shape,
    cells: &[E],
    states: &[State],
    direction: Direction,
    line: usize,
) -> Option<E> {
    let mut all = E::zero();
    for column in 0..shape.columns() {
        for row in 0..shape.rows() {
            if shape.chains(direction, line, row, column) {
                if !is_held(states, column) {
                    return None;
                }
                all = all.join(*cells.get(shape.index(row, column))?);
            }
        }
    }
    Some(all)
}

/// How many chains of a stripe buffer lie wholly in held strips, and how many of these do not join to zero.
pub fn count_chains<E: Sample>(shape: Shape, cells: &[E], states: &[State]) -> Checks {
    let (mut whole, mut failing) = (0usize, 0usize);
    for direction in [Direction::Row, Direction::Diagonal, Direction::Antidiagonal] {
        for line in 0..shape.rows() {
            if let Some(join) = chain_join(shape, cells, states, direction, line) {
                whole = whole.saturating_add(1);
                failing = failing.saturating_add(usize::from(!join.is_zero()));
            }
        }
    }
    Checks { whole, failing }
}

/// Each held strip is that column of the encoding of the scoreboard.
pub fn check_held<S: Shelf>(
    rt: &impl Abort,
    heap: Global,
    shelf: &mut S,
    board: &Scoreboard<S::Element>,
) -> Result<(), Fail>
where
    S::Element: Sample,
{
    let shape = board.shape;
    for stripe in 0..shape.stripes {
        let cells = board.encoding(heap, stripe)?;
        for column in 0..shape.columns() {
            for row in 0..shape.rows() {
                let wanted = *cells.get(shape.index(row, column)).ok_or("no such cell")?;
                match shelf.get(stripe, column, row) {
                    Ok(element) => assert_eq!(rt; element, wanted, "{stripe}, {column}, {row}"),
                    Err(_) => assert_ne!(rt; shelf.state(stripe, column), State::Held),
                }
            }
        }
    }
    Ok(())
}
