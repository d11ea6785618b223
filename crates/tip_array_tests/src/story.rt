// Stories whose numbers were worked out by hand.
use crate::calls::used_work;
use crate::random::Source;
use crate::samples::{Sample, check_same, set};
use crate::scoreboard::{Scoreboard, count_chains};
use crate::shape::Shape;
use crate::states::States;
use crate::stores::{Store, image};
use std::alloc::{AllocError, Global};
use std::process::Abort;
use std::test::Fail;
use tip_array::array::Array;
use tip_array::calls::{Answer, Call, Checks, Outcome};
use tip_code::geometry::Geometry;
use tip_code::stop::Stop;
use tip_element::element::Element;
use tip_element::trace::Trace;
use tip_element::word::Word;
use tip_fault::fault::Fault;
use tip_image::ImageShelf;
use tip_memory::MemoryShelf;
use tip_shelf::shelf::{Serviced, Shelf, State};

/// The array answers each call as wanted.
fn check_calls<S: Serviced>(
    rt: &impl Abort,
    array: &mut Array<S>,
    work: &mut [S::Element],
    script: &[(Call<S::Element>, Outcome<S::Element>)],
)
where
    S::Element: Sample,
{
    for (number, (call, wanted)) in script.iter().enumerate() {
        let outcome = array.serve(call, work);
        assert_eq!(rt; outcome, *wanted, "call {number}");
    }
}

fn read(place: usize, number: u64) -> (Call<Word>, Outcome<Word>) {
    let call = Call::Read { stripe: 0, place };
    (call, Ok(Answer::Read(Word(number))))
}

fn lost(place: usize) -> (Call<Word>, Outcome<Word>) {
    (Call::Read { stripe: 0, place }, Err(Stop::Lost))
}

fn write(place: usize, number: u64, outs: usize) -> (Call<Word>, Outcome<Word>) {
    let call = Call::Write {
        stripe: 0,
        place,
        element: Word(number),
    };
    (call, Ok(Answer::Written(outs)))
}

fn pull(device: usize) -> (Call<Word>, Outcome<Word>) {
    (Call::Pull { device }, Ok(Answer::Pulled))
}

fn fit(device: usize) -> (Call<Word>, Outcome<Word>) {
    (Call::Fit { device }, Ok(Answer::Fitted(true)))
}

fn rebuild(count: usize) -> (Call<Word>, Outcome<Word>) {
    (Call::Rebuild { stripe: 0 }, Ok(Answer::Rebuilt(count)))
}

fn check(whole: usize, failing: usize) -> (Call<Word>, Outcome<Word>) {
    let counts = Checks { whole, failing };
    (Call::Check { stripe: 0 }, Ok(Answer::Checked(counts)))
}

/// Places 0 to 11 of stripe 0 get 1 to 12.
fn writes(heap: Global) -> Result<Vec<Call<Word>>, AllocError> {
    let mut calls = Vec::new(heap);
    for place in 0..12 {
        let (call, _) = write(place, (place as u64).wrapping_add(1), 0);
        calls.push(call)?;
    }
    Ok(calls)
}

/// Three devices are lost, with a parity among them. All places can be read, and place 4 is written.
fn check_three_lost<S: Serviced<Element = Word>>(
    rt: &impl Abort,
    array: &mut Array<S>,
    work: &mut [Word],
) {
    check_calls(rt, array, work, &[pull(1), pull(3), pull(5)]);
    for place in 0..12 {
        let number = (place as u64).wrapping_add(1);
        check_calls(rt, array, work, &[read(place, number)]);
    }
    let script = [
        check(0, 0),
        write(4, 0, 3),
        read(4, 0),
        fit(1),
        fit(3),
        fit(5),
        rebuild(3),
        read(4, 0),
        check(12, 0),
    ];
    check_calls(rt, array, work, &script);
}

/// Devices 0 to 3 are lost. Of row 1 that leaves place 5, which is in column 4: it can be read and written, and no
/// other.
fn check_four_lost<S: Serviced<Element = Word>>(
    rt: &impl Abort,
    array: &mut Array<S>,
    work: &mut [Word],
) {
    let rebuild = (Call::Rebuild { stripe: 0 }, Err(Stop::Lost));
    let script = [
        pull(0),
        pull(1),
        pull(2),
        read(0, 1),
        pull(3),
        lost(0),
        lost(4),
        read(5, 6),
        write(5, 3, 4),
        read(5, 3),
        check(0, 0),
        fit(0),
        lost(0),
        rebuild,
    ];
    check_calls(rt, array, work, &script);
}

/// The first stripe once place 4 is 0 and all else as it was written, column after column.
const REBUILT: [u64; 24] = [
    1, 4, 7, 10, 12, 0, 8, 1, 2, 1, 2, 11, 3, 7, 5, 12, 13, 6, 9, 1, 0, 2, 6, 13,
];

/// The elements of a memory shelf with four stripes: the first is rebuilt, and the others are zero.
fn rebuilt(heap: Global) -> Result<Vec<Word>, AllocError> {
    let mut cells = Vec::new(heap);
    for number in REBUILT {
        cells.push(Word(number))?;
    }
    for _ in 0..72 {
        cells.push(Word(0))?;
    }
    Ok(cells)
}

/// A stripe is written, read while three devices are lost, rebuilt, and at last lost for good. The array stands on a
/// shelf that is lent to it, and the elements that it leaves in memory were worked out by hand.
#[test]
fn a_stripe_is_written_lost_and_rebuilt(rt: HostRuntime) -> Result<(), Fail> {
    let heap = rt.alloc();
    let shape = Shape {
        p: 5,
        stripes: 4,
        turns: false,
    };
    let geometry = Geometry::new(5, 4)?;
    let mut store: Store<Word> = Store::blank(heap, shape)?;
    let mut work = used_work(heap, 144)?;
    // Devices 1, 3 and 5 were fitted, and only the first stripe rebuilt.
    let statuses = [
        2, 2, 2, 2, 2, 2, 2, 1, 2, 1, 2, 1, 2, 1, 2, 1, 2, 1, 2, 1, 2, 1, 2, 1,
    ];
    {
        let mut shelf = MemoryShelf::new(&geometry, &mut store.cells, &mut store.statuses)?;
        let mut array = Array::over(&mut shelf);
        let report = array.format_and_run(heap, &writes(heap)?, &mut work)?;
        assert_eq!(rt; report.out, 0);
        assert_eq!(rt; report.outcomes.len(), 12);
        assert!(rt;
            report
                .outcomes
                .iter()
                .all(|outcome| *outcome == Ok(Answer::Written(0)))
        );
        check_calls(&rt, &mut array, &mut work, &[check(12, 0)]);
        check_three_lost(&rt, &mut array, &mut work);
    }
    check_same(&rt, "cells", &store.cells, &rebuilt(heap)?);
    check_same(&rt, "statuses", &store.statuses, &statuses);
    let mut shelf = MemoryShelf::new(&geometry, &mut store.cells, &mut store.statuses)?;
    check_four_lost(&rt, &mut Array::over(&mut shelf), &mut work);
    Ok(())
}

/// Cell (1, 5) of stripe 0 is the parity of row 1, and of no other chain. It is wrong, and a check says so, also when
/// device 2 is lost while the check reads: rows 1 and 2, diagonal 3 and antidiagonal 0 have no cell in column 2.
fn check_wrong_parity<S: Serviced<Element = Word> + Drop>(
    rt: &impl Abort,
    fault: &mut Fault<S>,
    work: &mut [Word],
) -> Result<(), Fail> {
    assert!(rt; fault.put(0, 5, 1, Word(1)).is_ok());
    check_calls(rt, &mut Array::over(&mut *fault), work, &[check(12, 1)]);
    let next = fault.accesses().saturating_add(20);
    fault.plan(next, 2)?;
    check_calls(
        rt,
        &mut Array::over(&mut *fault),
        work,
        &[check(4, 1), fit(2), rebuild(1)],
    );
    Ok(())
}

/// Column 5 is that of the rows' parities, so a check that loses it counts the other eight chains. None fails.
fn check_parities_lost<S: Serviced<Element = Word> + Drop>(
    rt: &impl Abort,
    fault: &mut Fault<S>,
    work: &mut [Word],
) -> Result<(), Fail> {
    let next = fault.accesses().saturating_add(40);
    fault.plan(next, 5)?;
    check_calls(rt, &mut Array::over(&mut *fault), work, &[check(8, 0)]);
    assert_eq!(rt; fault.state(0, 5), State::Absent);
    Ok(())
}

/// What a check counts when devices are lost while it reads.
#[test]
fn devices_are_lost_while_a_check_reads(rt: HostRuntime) -> Result<(), Fail> {
    let heap = rt.alloc();
    let shape = Shape {
        p: 5,
        stripes: 2,
        turns: false,
    };
    let geometry = Geometry::new(5, 2)?;
    let mut store: Store<Word> = Store::blank(heap, shape)?;
    let mut work = used_work(heap, 144)?;
    let shelf = MemoryShelf::new(&geometry, &mut store.cells, &mut store.statuses)?;
    let mut fault = Fault::over(shelf);
    assert_eq!(rt; Array::over(&mut fault).format(&mut work), Ok(0));
    check_wrong_parity(&rt, &mut fault, &mut work)?;
    check_parities_lost(&rt, &mut fault, &mut work)
}

/// Reads, writes, checks and rebuilds of place 1 of stripe 0 at p = 3, where all chains have a cell in column 0, which
/// is that of the place.
fn check_each<S: Serviced>(rt: &impl Abort, array: &mut Array<S>, work: &mut [S::Element])
where
    S::Element: Sample,
{
    let (five, six) = (S::Element::of(5), S::Element::of(6));
    let all = Checks {
        whole: 6,
        failing: 0,
    };
    let none = Checks {
        whole: 0,
        failing: 0,
    };
    assert_eq!(rt; array.format(work), Ok(0));
    assert_eq!(rt; array.read(0, 1, work), Ok(S::Element::zero()));
    assert_eq!(rt; array.write(0, 1, five, work), Ok(0));
    assert_eq!(rt; array.read(0, 1, work), Ok(five));
    assert_eq!(rt; array.check(0), Ok(all));
    assert_eq!(rt; array.pull(0), Ok(()));
    assert_eq!(rt; array.state(0, 0), State::Absent);
    assert_eq!(rt; array.read(0, 1, work), Ok(five));
    assert_eq!(rt; array.write(0, 1, six, work), Ok(1));
    assert_eq!(rt; array.check(0), Ok(none));
    assert_eq!(rt; array.fit(0), Ok(true));
    assert_eq!(rt; array.state(0, 0), State::Blank);
    assert_eq!(rt; array.rebuild(0, work), Ok(1));
    assert_eq!(rt; array.state(0, 0), State::Held);
    assert_eq!(rt; array.read(0, 1, work), Ok(six));
}

/// The array has its shelf's sizes, each call does its work, and the shelf comes back as the calls left it.
fn check_array<S: Serviced + Drop>(rt: &impl Abort, heap: Global, shelf: S) -> Result<(), Fail>
where
    S::Element: Sample,
{
    let six = S::Element::of(6);
    let mut work = used_work(heap, 64)?;
    let mut array = Array::over(shelf);
    assert_eq!(rt; array.geometry().prime().number, 3);
    assert_eq!(rt; array.geometry().stripes(), 2);
    assert!(rt; array.is_steady());
    check_each(rt, &mut array, &mut work);
    let mut calls = Vec::new(heap);
    calls.push(Call::Read {
        stripe: 0,
        place: 1,
    })?;
    calls.push(Call::Pull { device: 0 })?;
    let outcomes = array.run(heap, &calls, &mut work)?;
    let mut wanted = Vec::new(heap);
    wanted.push(Ok(Answer::Read(six)))?;
    wanted.push(Ok(Answer::Pulled))?;
    check_same(rt, "outcomes", &outcomes, &wanted);
    let mut shelf = array.into_shelf();
    assert_eq!(rt; shelf.state(1, 0), State::Absent);
    assert_eq!(rt; shelf.get(0, 1, 1).ok(), Some(six));
    Ok(())
}

/// Each call once, by its own name, over memory that is lent or owned and over an image.
#[test]
fn each_call_does_its_work(rt: HostRuntime) -> Result<(), Fail> {
    let heap = rt.alloc();
    let shape = Shape {
        p: 3,
        stripes: 2,
        turns: false,
    };
    let geometry = Geometry::new(3, 2)?;
    let mut store: Store<Trace> = Store::blank(heap, shape)?;
    let mut bytes = image(heap, shape, &[1; 8])?;
    let mut memory = MemoryShelf::new(&geometry, &mut store.cells, &mut store.statuses)?;
    check_array(&rt, heap, &mut memory)?;
    assert!(rt; memory.fit(0));
    check_array(&rt, heap, memory)?;
    check_array(&rt, heap, ImageShelf::new(&geometry, &mut bytes)?)
}

/// An array whose first stripe has a random-looking element in each place.
fn fill<S: Serviced>(
    rt: &impl Abort,
    heap: Global,
    shelf: &mut S,
    shape: Shape,
) -> Result<Scoreboard<S::Element>, Fail>
where
    S::Element: Sample,
{
    let mut source = Source { state: 3 };
    let mut board = Scoreboard::zero(heap, shape)?;
    let mut work = used_work(heap, shape.work())?;
    let mut array = Array::over(shelf);
    assert_eq!(rt; array.format(&mut work), Ok(0));
    for place in 0..shape.places() {
        let call = Call::Write {
            stripe: 0,
            place,
            element: S::Element::of(source.number()),
        };
        let outcome = array.serve(&call, &mut work);
        board.note(&call, &outcome);
    }
    Ok(board)
}

/// A cell of stripe 0 is wrong: a check counts what the chains of the wrong stripe buffer say, and gives that.
fn damaged<S: Serviced>(
    rt: &impl Abort,
    heap: Global,
    shelf: &mut S,
    board: &Scoreboard<S::Element>,
    (row, column): (usize, usize),
) -> Result<Checks, Fail>
where
    S::Element: Sample,
{
    let index = board.shape.index(row, column);
    let mut cells = board.encoding(heap, 0)?;
    let right = *cells.get(index).ok_or("no such cell")?;
    let wrong = right.join(S::Element::of(1));
    set(&mut cells, index, wrong);
    let is_wrong = shelf.put(0, column, row, wrong).is_ok();
    let mut array = Array::over(&mut *shelf);
    let states = States::of(heap, &mut array)?;
    let counts = array.check(0)?;
    assert_eq!(rt; counts, count_chains(board.shape, &cells, states.stripe(0)));
    let is_right = shelf.put(0, column, row, right).is_ok();
    assert_eq!(rt; is_wrong, is_right);
    Ok(counts)
}

/// A wrong place is seen in its three chains and a wrong parity in its own, if all strips are held. If two are out,
/// the chains that are left are judged.
#[test]
fn wrong_cells_are_counted(rt: HostRuntime) -> Result<(), Fail> {
    let heap = rt.alloc();
    for p in [5, 7] {
        let shape = Shape {
            p,
            stripes: 2,
            turns: false,
        };
        let geometry = Geometry::new(p, 2)?;
        let mut store: Store<Word> = Store::blank(heap, shape)?;
        let mut shelf = MemoryShelf::new(&geometry, &mut store.cells, &mut store.statuses)?;
        let board = fill(&rt, heap, &mut shelf, shape)?;
        for column in 0..shape.columns() {
            for row in 0..shape.rows() {
                let counts = damaged(&rt, heap, &mut shelf, &board, (row, column))?;
                let wanted = if shape.is_place(row, column) { 3 } else { 1 };
                assert_eq!(rt; counts.failing, wanted, "{row}, {column}");
            }
        }
        shelf.pull(1);
        shelf.pull(p);
        for column in 0..shape.columns() {
            for row in 0..shape.rows() {
                let _counts = damaged(&rt, heap, &mut shelf, &board, (row, column))?;
            }
        }
    }
    Ok(())
}
