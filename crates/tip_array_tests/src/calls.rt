// One call on an array, with all that it answers and changes compared to the scoreboard and the states of the strips.
use crate::samples::{Sample, filled};
use crate::scoreboard::{Scoreboard, count_chains};
use crate::shape::Shape;
use crate::states::States;
use std::alloc::Global;
use std::process::Abort;
use std::test::Fail;
use tip_array::array::Array;
use tip_array::calls::{Answer, Call, Outcome};
use tip_code::stop::Stop;
use tip_shelf::shelf::{Serviced, State};

/// What a work buffer holds before a call.
const USED: u64 = 77;

/// What is seen of a call.
#[derive(Drop)]
struct Seen {
    shape: Shape,
    is_steady: bool,
    before: States,
    after: States,
}

/// The first of the stops that a call is refused by before it does anything.
pub fn refusal<E>(shape: Shape, call: &Call<E>, work: usize) -> Option<Stop> {
    let short = (work < shape.work()).then_some(Stop::Work);
    let has_stripe = |stripe: usize| stripe < shape.stripes;
    match call {
        Call::Read { stripe, place } | Call::Write { stripe, place, .. } => short
            .or((!has_stripe(*stripe)).then_some(Stop::Stripe))
            .or((*place >= shape.places()).then_some(Stop::Place)),
        Call::Rebuild { stripe } => short.or((!has_stripe(*stripe)).then_some(Stop::Stripe)),
        Call::Check { stripe } => (!has_stripe(*stripe)).then_some(Stop::Stripe),
        Call::Pull { device } | Call::Fit { device } => {
            (*device > shape.p).then_some(Stop::Column)
        }
    }
}

/// What a strip turns by a call, unless it drops.
fn turned<E>(
    shape: Shape,
    call: &Call<E>,
    is_accepted: bool,
    (stripe, column): (usize, usize),
    before: State,
) -> State {
    let device = shape.device(stripe, column);
    match (call, before) {
        (Call::Pull { device: pulled }, _) if *pulled == device => State::Absent,
        (Call::Fit { device: fitted }, State::Absent) if *fitted == device => State::Blank,
        (Call::Rebuild { stripe: rebuilt }, State::Blank) if is_accepted && *rebuilt == stripe =>
            State::Held,
        _ => before,
    }
}

/// Whether strips may drop in a call: those of a shelf that is not steady, where the call makes accesses.
fn may_drop<E>(seen: &Seen, call: &Call<E>) -> bool {
    !seen.is_steady && !matches!(call, Call::Pull { .. } | Call::Fit { .. })
}

/// Each strip turns as the call says, or drops.
fn check_states<E: Sample>(rt: &impl Abort, seen: &Seen, call: &Call<E>, is_accepted: bool) {
    let drops = may_drop(seen, call);
    let stripes = seen.before.stripes.iter().zip(&seen.after.stripes);
    for (stripe, (before, after)) in stripes.enumerate() {
        for (column, (old, new)) in before.iter().zip(after).enumerate() {
            let wanted = turned(seen.shape, call, is_accepted, (stripe, column), *old);
            let is_right = *new == wanted || drops && *new == State::Absent;
            assert!(rt; is_right, "{call:?}: {stripe}, {column} turned {new:?}");
        }
    }
}

/// A read gives what the scoreboard shows, and is refused just where the place is lost at the end.
fn wanted_read<E: Sample>(
    board: &Scoreboard<E>,
    seen: &Seen,
    stripe: usize,
    place: usize,
) -> Outcome<E> {
    if seen.after.are_lost(stripe, seen.shape.column_of(place)) {
        Err(Stop::Lost)
    } else {
        Ok(Answer::Read(board.element(stripe, place)))
    }
}

/// A write that is refused lost its place; one that is done did not have it lost at the start.
fn is_written<E: Sample>(seen: &Seen, stripe: usize, place: usize, outcome: &Outcome<E>) -> bool {
    let column = seen.shape.column_of(place);
    match outcome {
        Ok(Answer::Written(count)) => {
            *count == seen.after.outs(stripe) && !seen.before.are_lost(stripe, column)
        }
        Err(Stop::Lost) => seen.after.are_lost(stripe, column),
        _ => false,
    }
}

/// How many strips of a stripe were blank and are held.
fn count_rebuilt(seen: &Seen, stripe: usize) -> usize {
    let before = seen.before.stripe(stripe).iter();
    before
        .zip(seen.after.stripe(stripe))
        .filter(|(old, new)| **old == State::Blank && **new == State::Held)
        .count()
}

/// A rebuild that is refused has more than three strips out; one that is done had not at the start, and leaves none
/// blank.
fn is_rebuilt<E: Sample>(seen: &Seen, stripe: usize, outcome: &Outcome<E>) -> bool {
    match outcome {
        Ok(Answer::Rebuilt(count)) => {
            let none_blank = seen
                .after
                .stripe(stripe)
                .iter()
                .all(|state| *state != State::Blank);
            *count == count_rebuilt(seen, stripe) && seen.before.outs(stripe) <= 3 && none_blank
        }
        Err(Stop::Lost) => seen.after.outs(stripe) > 3,
        _ => false,
    }
}

/// The outcome of a call that is not refused at once.
fn check_outcome<E: Sample>(
    rt: &impl Abort,
    heap: Global,
    board: &Scoreboard<E>,
    seen: &Seen,
    call: &Call<E>,
    outcome: &Outcome<E>,
) -> Result<(), Fail> {
    match *call {
        Call::Read { stripe, place } => {
            let wanted = wanted_read(board, seen, stripe, place);
            assert_eq!(rt; *outcome, wanted, "{call:?}");
        }
        Call::Write { stripe, place, .. } => {
            assert!(rt;
                is_written(seen, stripe, place, outcome),
                "{call:?}: {outcome:?}"
            );
        }
        Call::Rebuild { stripe } => {
            assert!(rt; is_rebuilt(seen, stripe, outcome), "{call:?}: {outcome:?}");
        }
        Call::Check { stripe } => {
            let cells = board.encoding(heap, stripe)?;
            let counts = count_chains(seen.shape, &cells, seen.after.stripe(stripe));
            assert_eq!(rt; *outcome, Ok(Answer::Checked(counts)), "{call:?}");
        }
        Call::Pull { .. } => assert_eq!(rt; *outcome, Ok(Answer::Pulled), "{call:?}"),
        Call::Fit { .. } => assert_eq!(rt; *outcome, Ok(Answer::Fitted(true)), "{call:?}"),
    }
    Ok(())
}

/// The work buffer is cleared as far as the array uses it, or untouched.
pub fn check_work<E: Sample>(rt: &impl Abort, work: &[E], cleared: usize) {
    for (index, element) in work.iter().enumerate() {
        let wanted = if index < cleared {
            E::zero()
        } else {
            E::of(USED)
        };
        assert_eq!(rt; *element, wanted, "work {index}");
    }
}

/// A work buffer of this length, with something in it.
pub fn used_work<E: Sample>(heap: Global, count: usize) -> Result<Vec<E>, Fail> {
    Ok(filled(heap, E::of(USED), count)?)
}

/// How much of its work buffer a call clears.
pub fn cleared<E>(shape: Shape, call: &Call<E>) -> usize {
    match call {
        Call::Read { .. } | Call::Write { .. } | Call::Rebuild { .. } => shape.work(),
        Call::Check { .. } | Call::Pull { .. } | Call::Fit { .. } => 0,
    }
}

/// Makes one call with a work buffer of this length, compares all that can be seen of it, and takes it down on the
/// scoreboard.
pub fn check_call<S: Serviced>(
    rt: &impl Abort,
    heap: Global,
    array: &mut Array<S>,
    board: &mut Scoreboard<S::Element>,
    call: &Call<S::Element>,
    length: usize,
) -> Result<Outcome<S::Element>, Fail>
where
    S::Element: Sample,
{
    let shape = board.shape;
    let mut work = used_work(heap, length)?;
    let before = States::of(heap, array)?;
    let outcome = array.serve(call, &mut work);
    let after = States::of(heap, array)?;
    if let Some(stop) = refusal(shape, call, length) {
        assert_eq!(rt; outcome, Err(stop), "{call:?}");
        assert_eq!(rt; after, before, "{call:?}");
        check_work(rt, &work, 0);
        return Ok(outcome);
    }
    let seen = Seen {
        shape,
        is_steady: array.is_steady(),
        before,
        after,
    };
    check_states(rt, &seen, call, outcome.is_ok());
    check_outcome(rt, heap, board, &seen, call, &outcome)?;
    check_work(rt, &work, cleared(shape, call));
    board.note(call, &outcome);
    Ok(outcome)
}

/// Formats an array: each strip that is not absent is held, or drops.
pub fn check_format<S: Serviced>(
    rt: &impl Abort,
    heap: Global,
    array: &mut Array<S>,
    shape: Shape,
) -> Result<(), Fail>
where
    S::Element: Sample,
{
    let mut work: Vec<S::Element> = used_work(heap, shape.work().saturating_add(3))?;
    let before = States::of(heap, array)?;
    let answer = array.format(&mut work);
    let after = States::of(heap, array)?;
    assert_eq!(rt; answer, Ok(after.all_outs()));
    check_work(rt, &work, shape.work());
    let drops = !array.is_steady();
    for (before, after) in before.stripes.iter().zip(&after.stripes) {
        for (old, new) in before.iter().zip(after) {
            let may_be_absent = *old == State::Absent || drops;
            let may_be_held = *old != State::Absent;
            let is_right = *new == State::Absent && may_be_absent
                || *new == State::Held && may_be_held;
            assert!(rt; is_right, "{old:?} turned {new:?}");
        }
    }
    Ok(())
}
