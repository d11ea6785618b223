// Lists of calls.
ghost use Rattle.std.specs.Prelude.{◌≡◌, ◌≤◌, [], length, MatchResult};
ghost use Rattle.std.specs.Vec.{vec_capacity};
ghost use Rattle.tip_array.specs.Steps.{Step};
ghost use Rattle.tip_array.specs.Keeping.{Keeps};
ghost use Rattle.tip_array.specs.Runs.{History, Ran, FormattedRun, RunRefused, WorkStep};
ghost use Rattle.tip_shelf.specs.Calls.{Same};
ghost use Rattle.tip_solve.specs.Solving.{work_in, Cleared};

use crate::array::Array;
use crate::calls::{Answer, Call, Outcome};
use std::alloc::{AllocError, Global};
use thiserror::Error;
use tip_code::stop::Stop;
use tip_element::element::Element;
use tip_shelf::shelf::{Serviced, Shelf};

/// What was answered from a format on.
#[derive(Drop)]
pub struct Report<E> {
    /// How many strips were out after the format.
    pub out: usize,
    /// The outcome of each call, in order.
    pub outcomes: Vec<Outcome<E>>,
}

/// Why an array was not formatted, and no call made.
#[derive(Clone, Copy, PartialEq, Debug, Error)]
pub enum RunError {
    /// There is no memory for the outcomes.
    #[error(transparent)]
    NoMemory(AllocError),
    /// The format is refused.
    #[error(transparent)]
    Stopped(Stop),
}

impl From<AllocError> for RunError {
    ghost use Rattle.tip_array.specs.declared.run.RunError.{RunError};

    ghost from_gives = { λ e f. f ≡ RunError.NoMemory e };

    fn from(error: AllocError) -> RunError {
        RunError::NoMemory(error)
    }
}

impl From<Stop> for RunError {
    ghost use Rattle.tip_array.specs.declared.run.RunError.{RunError};

    ghost from_gives = { λ s f. f ≡ RunError.Stopped s };

    fn from(stop: Stop) -> RunError {
        RunError::Stopped(stop)
    }
}

impl<S: Serviced> Array<S> {
    /// Makes one call. Check, pull and fit leave the work buffer alone.
    pub fn serve(&mut self, call: &Call<S::Element>, work: &mut [S::Element]) -> Outcome<S::Element>
        ensures step { Step S.Element.zero S.Element.join (S.meaning self.old.shelf) (S.meaning self.new.shelf)
            call.now (length work.old) result }
        ensures keeps { Keeps (S.meaning self.old.shelf) (S.meaning self.new.shelf) call.now result }
        ensures work { WorkStep S.Element.zero (S.meaning self.old.shelf).prime call.now work.old work.new result }
        ensures lent { S.lent self.new.shelf ≡ S.lent self.old.shelf }
    {
        Ok(match *call {
            Call::Read { stripe, place } => Answer::Read(self.read(stripe, place, work)?),
            Call::Write {
                stripe,
                place,
                element,
            } => Answer::Written(self.write(stripe, place, element, work)?),
            Call::Rebuild { stripe } => Answer::Rebuilt(self.rebuild(stripe, work)?),
            Call::Check { stripe } => Answer::Checked(self.check(stripe)?),
            Call::Pull { device } => {
                self.pull(device)?;
                Answer::Pulled
            }
            Call::Fit { device } => Answer::Fitted(self.fit(device)?),
        })
    }

    /// Makes calls in turn, and puts their outcomes where there is memory for them.
    fn run_all(
        &mut self,
        calls: &[Call<S::Element>],
        work: &mut [S::Element],
        outcomes: &mut Vec<Outcome<S::Element>>,
    )
        requires empty { outcomes.old.items ≡ [] }
        requires room { length calls.now ≤ vec_capacity outcomes.old }
        ensures history { History S.Element.zero S.Element.join (S.meaning self.old.shelf) (S.meaning self.new.shelf)
            calls.now work.old work.new outcomes.new.items }
        ensures lent { S.lent self.new.shelf ≡ S.lent self.old.shelf }
    {
        for call in calls {
            outcomes.push_reserved(self.serve(call, work));
        }
    }

    /// Makes calls in turn, each on the array as the one before left it, and gives the outcome of each. Whatever
    /// scoreboard the array mirrored before, the run is sound with it: so an array that was written on an earlier day
    /// goes on from what it held.
    ///
    /// The outcomes have their memory before the first call is made. Where there is none, no call is made, and nothing
    /// changes.
    pub fn run(
        &mut self,
        heap: Global,
        calls: &[Call<S::Element>],
        work: &mut [S::Element],
    ) -> Result<Vec<Outcome<S::Element>>, AllocError>
        ensures ran { MatchResult result
            (λ v. Ran S.Element.zero S.Element.join (S.meaning self.old.shelf) (S.meaning self.new.shelf)
            calls.now work.old work.new v.items)
            (λ _. Same (S.meaning self.old.shelf) (S.meaning self.new.shelf) × (work.new ≡ work.old)) }
        ensures lent { S.lent self.new.shelf ≡ S.lent self.old.shelf }
    {
        let mut outcomes = Vec::with_capacity(heap, calls.len())?;
        self.run_all(calls, work, &mut outcomes);
        Ok(outcomes)
    }

    /// Formats the array and makes calls in turn on it. The run is sound, with the scoreboard that is zero at its
    /// start. The work buffer is then as after a format.
    ///
    /// The outcomes have their memory before the array is formatted. Where there is none, or the format is refused by
    /// stop 9, nothing changes.
    pub fn format_and_run(
        &mut self,
        heap: Global,
        calls: &[Call<S::Element>],
        work: &mut [S::Element],
    ) -> Result<Report<S::Element>, RunError>
        ensures ran { MatchResult result
            (λ r. FormattedRun S.Element.zero S.Element.join (S.meaning self.old.shelf) (S.meaning self.new.shelf)
            calls.now work.old work.new r.out r.outcomes.items)
            (RunRefused (S.meaning self.old.shelf) (S.meaning self.new.shelf) (length work.old)) }
        ensures work { MatchResult result
            (λ _. Cleared S.Element.zero (work_in (S.meaning self.old.shelf).prime) work.old work.new)
            (λ _. work.new ≡ work.old) }
        ensures lent { S.lent self.new.shelf ≡ S.lent self.old.shelf }
    {
        let mut outcomes = Vec::with_capacity(heap, calls.len())?;
        let out = self.format(work)?;
        self.run_all(calls, work, &mut outcomes);
        Ok(Report { out, outcomes })
    }
}
