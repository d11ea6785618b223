// A stripe that loses columns, and what solving makes of it.
ghost use Rattle.std.specs.Prelude.{◌≡◌, ℕ, ◌+◌, ◌<◌, length, slice_index_or, IfOk, MatchResult, Some, alloc_error};
ghost use Rattle.tip_code.specs.Geometry.{prime_of};
ghost use Rattle.tip_code.specs.Stripe.{stripe_of};
ghost use Rattle.tip_columns.specs.Sets.{in_set};
ghost use Rattle.tip_element.specs.Laws.{Exactly};
ghost use Rattle.tip_element.specs.Words.{word, no_word};
ghost use Rattle.tip_lose.specs.Choosing.{ChoiceStop};
ghost use Rattle.tip_lose.specs.Trying.{CountedStripe, StoppedWithRoom};
ghost use Rattle.tip_solve.specs.Solving.{Agree};

use crate::request::Request;
use std::alloc::{AllocError, Global};
use thiserror::Error;
use tip_code::encode::encode;
use tip_code::geometry::Geometry;
use tip_code::stop::Stop;
use tip_columns::Columns;
use tip_element::word::Word;
use tip_solve::solve::{solve, work_len};

/// What is in a lost cell until it is solved. Solving does not look at it.
const SPOILED: Word = Word(u64::MAX);

/// A stripe as it was encoded, and as it was solved after columns were lost.
#[derive(Drop)]
pub struct Trial {
    pub encoded: Vec<Word>,
    pub solved: Vec<Word>,
}

/// Why there is no trial.
#[derive(Clone, Copy, PartialEq, Debug, Error)]
pub enum Failure {
    /// There is no room for a stripe.
    #[error(transparent)]
    NoRoom(AllocError),
    /// The columns are refused.
    #[error(transparent)]
    Stopped(Stop),
}

impl From<AllocError> for Failure {
    ghost use Rattle.tip_lose.specs.declared.trial.Failure.{Failure};

    ghost from_gives = { λ e f. f ≡ Failure.NoRoom e };

    fn from(error: AllocError) -> Failure {
        Failure::NoRoom(error)
    }
}

impl From<Stop> for Failure {
    ghost use Rattle.tip_lose.specs.declared.trial.Failure.{Failure};

    ghost from_gives = { λ s f. f ≡ Failure.Stopped s };

    fn from(stop: Stop) -> Failure {
        Failure::Stopped(stop)
    }
}

/// The first numbers from 1 on. No stripe has a thousand places.
fn counted(heap: Global, count: usize) -> Result<Vec<Word>, AllocError>
    requires { count < 1000 }
    ensures { IfOk result (λ v. (length v.items ≡ count) × ((n : ℕ) → n < count → slice_index_or v.items n no_word ≡ word (n + 1))) }
{
    (1..count as u64 + 1).map(Word).collect(heap)
}

/// The stripe whose places hold 1, 2, 3 and so on.
fn counted_stripe(heap: Global, geometry: Geometry) -> Result<Vec<Word>, Failure>
    ensures { MatchResult result (λ v. CountedStripe (prime_of geometry) v.items) (λ f. f ≡ Failure.NoRoom alloc_error) }
{
    let values = counted(heap, geometry.places())?;
    let mut cells = vec![in heap; SPOILED; geometry.cells()]?;
    encode(geometry, &values, &mut cells)?;
    Ok(cells)
}

/// Overwrites the cells of the lost columns, which stand in the buffer one after another.
fn lose(geometry: Geometry, lost: Columns, cells: &mut [Word])
    ensures { Agree (prime_of geometry) (in_set lost) (stripe_of no_word (prime_of geometry) cells.new) (stripe_of no_word (prime_of geometry) cells.old) }
{
    let rows = geometry.prime().number - 1;
    for (index, cell) in cells.iter_mut().enumerate() {
        if lost.has(index / rows) {
            *cell = SPOILED;
        }
    }
}

/// Loses columns of that stripe and solves them.
#[tactic(auto, using(crate::proofs::Losing::prime_listed, crate::proofs::Losing::choice_first))]
fn lose_and_solve(
    heap: Global,
    geometry: Geometry,
    lost: Columns,
    cells: &mut [Word],
) -> Result<(), Failure>
    requires { CountedStripe (prime_of geometry) cells.old }
    ensures stop { StoppedWithRoom (ChoiceStop (prime_of geometry) (Some lost)) result }
    ensures back { IfOk result (λ _. cells.new ≡ cells.old) }
{
    lose(geometry, lost, cells);
    let mut work = vec![in heap; SPOILED; work_len(geometry)]?;
    solve(geometry, cells, lost, &mut work)?;
    Ok(())
}

/// Encodes a stripe whose places hold 1, 2, 3 and so on, loses the columns and solves them. Refused with the first stop that fits:
/// stop 12, a lost column is above p; stop 13, more than three are lost.
pub fn tried(heap: Global, request: Request) -> Result<Trial, Failure>
    ensures stop { StoppedWithRoom (ChoiceStop (prime_of request.geometry) (Some request.lost)) result }
    ensures whole { IfOk result (λ t. CountedStripe (prime_of request.geometry) t.encoded.items × (t.solved.items ≡ t.encoded.items)) }
{
    let Request { geometry, lost } = request;
    let encoded = counted_stripe(heap, geometry)?;
    let mut solved = encoded.clone()?;
    lose_and_solve(heap, geometry, lost, &mut solved)?;
    Ok(Trial { encoded, solved })
}

impl Trial {
    /// Whether what was solved is the stripe that was encoded.
    #[tactic(auto, using(crate::proofs::Trials::same_words))]
    pub fn is_whole(&self) -> bool
        ensures { Exactly result (self.now.encoded.items ≡ self.now.solved.items) }
    {
        self.encoded == self.solved
    }
}
