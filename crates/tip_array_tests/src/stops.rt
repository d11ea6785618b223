// Calls that are refused, and what they leave alone.
use crate::calls::{check_work, cleared, used_work};
use crate::samples::{Sample, check_same};
use crate::shape::Shape;
use crate::stores::{Store, image};
use std::alloc::{AllocError, Global};
use std::process::Abort;
use std::test::Fail;
use tip_array::array::Array;
use tip_array::calls::Call;
use tip_array::run::RunError;
use tip_code::geometry::Geometry;
use tip_code::stop::Stop;
use tip_element::trace::Trace;
use tip_element::word::Word;
use tip_image::ImageShelf;
use tip_memory::MemoryShelf;
use tip_shelf::shelf::Serviced;

/// What is asked of an array.
#[derive(Clone, Copy, PartialEq, Debug)]
enum Attempt<E> {
    Format,
    FormatAndRun,
    Call(Call<E>),
}

/// What is asked of an array, the length of the work buffer, and the stop that is wanted, or none where the call is
/// done. All these leave the shelf as it was.
#[derive(Clone, Copy, PartialEq, Debug)]
struct Case<E> {
    attempt: Attempt<E>,
    work: usize,
    stop: Option<Stop>,
}

/// The status byte of a strip before: in stripe 0 four strips are out and in stripe 1 three, the first of each, and no
/// others.
fn status(stripe: usize, column: usize) -> u8 {
    let outs = match stripe {
        0 => 4,
        1 => 3,
        _ => 0,
    };
    match column {
        0 if column < outs => 0,
        2 if column < outs => 3,
        _ if column < outs => 1,
        _ => 2,
    }
}

/// The status bytes of all strips.
fn statuses(heap: Global, shape: Shape) -> Result<Vec<u8>, AllocError> {
    let mut all = Vec::new(heap);
    for stripe in 0..shape.stripes {
        for column in 0..shape.columns() {
            all.push(status(stripe, column))?;
        }
    }
    Ok(all)
}

/// The cases so far.
#[derive(Drop)]
struct Table<E> {
    shape: Shape,
    all: Vec<Case<E>>,
}

impl<E: Sample> Table<E> {
    fn push(
        &mut self,
        attempt: Attempt<E>,
        work: usize,
        stop: Option<Stop>,
    ) -> Result<(), AllocError> {
        self.all.push(Case {
            attempt,
            work,
            stop,
        })?;
        Ok(())
    }

    /// Reads and writes: where several stops fit, the lowest comes.
    fn push_places(&mut self) -> Result<(), AllocError> {
        let (full, stripes, places) = (self.shape.work(), self.shape.stripes, self.shape.places());
        let (short, more) = (full.saturating_sub(1), full.saturating_add(5));
        for (stripe, place, work, stop) in [
            (0, 0, 0, Stop::Work),
            (2, 0, short, Stop::Work),
            (0, 0, short, Stop::Work),
            (0, places, short, Stop::Work),
            (stripes, places, short, Stop::Work),
            (stripes, 0, full, Stop::Stripe),
            (stripes, places, full, Stop::Stripe),
            (usize::MAX, usize::MAX, more, Stop::Stripe),
            (0, places, full, Stop::Place),
            (2, usize::MAX, more, Stop::Place),
            (0, 0, full, Stop::Lost),
            (0, 0, more, Stop::Lost),
        ] {
            let element = E::of(99);
            self.push(
                Attempt::Call(Call::Read { stripe, place }),
                work,
                Some(stop),
            )?;
            let write = Call::Write {
                stripe,
                place,
                element,
            };
            self.push(Attempt::Call(write), work, Some(stop))?;
        }
        Ok(())
    }

    /// Rebuilds and checks.
    fn push_stripes(&mut self) -> Result<(), AllocError> {
        let (full, stripes) = (self.shape.work(), self.shape.stripes);
        let (short, more) = (full.saturating_sub(1), full.saturating_add(5));
        for (stripe, work, stop) in [
            (0, 0, Stop::Work),
            (0, short, Stop::Work),
            (1, short, Stop::Work),
            (stripes, short, Stop::Work),
            (stripes, full, Stop::Stripe),
            (usize::MAX, more, Stop::Stripe),
            (0, full, Stop::Lost),
            (0, more, Stop::Lost),
        ] {
            self.push(Attempt::Call(Call::Rebuild { stripe }), work, Some(stop))?;
        }
        for stripe in [stripes, usize::MAX] {
            self.push(Attempt::Call(Call::Check { stripe }), 3, Some(Stop::Stripe))?;
        }
        Ok(())
    }

    /// Formats, pulls and fits.
    fn push_others(&mut self) -> Result<(), AllocError> {
        let short = self.shape.work().saturating_sub(1);
        for work in [0, short] {
            self.push(Attempt::Format, work, Some(Stop::Work))?;
            self.push(Attempt::FormatAndRun, work, Some(Stop::Work))?;
        }
        for device in [self.shape.columns(), usize::MAX] {
            self.push(Attempt::Call(Call::Pull { device }), 3, Some(Stop::Column))?;
            self.push(Attempt::Call(Call::Fit { device }), 3, Some(Stop::Column))?;
        }
        Ok(())
    }

    /// Calls that are done and change nothing: stripe 2 has nothing to rebuild, and the last device no strip that is
    /// absent.
    fn push_done(&mut self) -> Result<(), AllocError> {
        let more = self.shape.work().saturating_add(5);
        for stripe in [1, 2] {
            let read = Call::Read { stripe, place: 0 };
            self.push(Attempt::Call(read), more, None)?;
            self.push(Attempt::Call(Call::Check { stripe }), 3, None)?;
        }
        self.push(Attempt::Call(Call::Rebuild { stripe: 2 }), more, None)?;
        self.push(Attempt::Call(Call::Check { stripe: 0 }), 3, None)?;
        let device = self.shape.p;
        self.push(Attempt::Call(Call::Fit { device }), 3, None)
    }
}

/// All cases.
fn cases<E: Sample>(heap: Global, shape: Shape) -> Result<Vec<Case<E>>, AllocError> {
    let mut table = Table {
        shape,
        all: Vec::new(heap),
    };
    table.push_places()?;
    table.push_stripes()?;
    table.push_others()?;
    table.push_done()?;
    Ok(table.all)
}

/// The stop that comes, if one does.
fn stop_of<S: Serviced>(
    heap: Global,
    array: &mut Array<S>,
    attempt: Attempt<S::Element>,
    work: &mut [S::Element],
) -> Result<Option<Stop>, AllocError> {
    match attempt {
        Attempt::Format => Ok(array.format(work).err()),
        Attempt::FormatAndRun => {
            let mut calls = Vec::new(heap);
            calls.push(Call::Pull { device: 0 })?;
            match array.format_and_run(heap, &calls, work) {
                Ok(_) => Ok(None),
                Err(RunError::Stopped(stop)) => Ok(Some(stop)),
                Err(RunError::NoMemory(error)) => Err(error),
            }
        }
        Attempt::Call(call) => Ok(array.serve(&call, work).err()),
    }
}

/// How much of its work buffer a case clears: at stop 13 as much as where the call is done, and at others nothing.
fn cleared_by<E>(shape: Shape, case: &Case<E>) -> usize {
    match (&case.attempt, case.stop) {
        (Attempt::Call(call), None | Some(Stop::Lost)) => cleared(shape, call),
        _ => 0,
    }
}

/// The stop comes, and the work buffer is cleared or not.
fn check_case<S: Serviced>(
    rt: &impl Abort,
    heap: Global,
    shelf: S,
    shape: Shape,
    case: &Case<S::Element>,
) -> Result<(), Fail>
where
    S: Drop,
    S::Element: Sample,
{
    let mut array = Array::over(shelf);
    let mut work = used_work(heap, case.work)?;
    let stop = stop_of(heap, &mut array, case.attempt, &mut work)?;
    assert_eq!(rt; stop, case.stop, "p = {}, {case:?}", shape.p);
    check_work(rt, &work, cleared_by(shape, case));
    Ok(())
}

/// The cases over memory of the kind of element.
fn check_memory<E: Sample>(rt: &impl Abort, heap: Global, shape: Shape) -> Result<(), Fail> {
    let geometry = Geometry::new(shape.p, shape.stripes)?;
    for case in &cases(heap, shape)? {
        let wanted: Store<E> = Store::with(heap, shape, statuses(heap, shape)?)?;
        let mut store: Store<E> = Store::with(heap, shape, statuses(heap, shape)?)?;
        let shelf = MemoryShelf::new(&geometry, &mut store.cells, &mut store.statuses)?;
        check_case(rt, heap, shelf, shape, case)?;
        check_same(rt, "cells", &store.cells, &wanted.cells);
        check_same(rt, "statuses", &store.statuses, &wanted.statuses);
    }
    Ok(())
}

/// The cases over an image.
fn check_image(rt: &impl Abort, heap: Global, shape: Shape) -> Result<(), Fail> {
    let geometry = Geometry::new(shape.p, shape.stripes)?;
    for case in &cases(heap, shape)? {
        let wanted = image(heap, shape, &statuses(heap, shape)?)?;
        let mut bytes = image(heap, shape, &statuses(heap, shape)?)?;
        let shelf = ImageShelf::new(&geometry, &mut bytes)?;
        check_case(rt, heap, shelf, shape, case)?;
        check_same(rt, "image", &bytes, &wanted);
    }
    Ok(())
}

/// Each call gives the first of its stops that fits. What is refused leaves all buffers as they were, but for the work
/// buffer at stop 13; and so do calls that are done and have nothing to change.
#[test]
fn stops_leave_buffers_alone(rt: HostRuntime) -> Result<(), Fail> {
    let heap = rt.alloc();
    for p in [3, 5, 7] {
        let shape = Shape {
            p,
            stripes: 3,
            turns: false,
        };
        check_memory::<Word>(&rt, heap, shape)?;
        check_memory::<Trace>(&rt, heap, shape)?;
        check_image(&rt, heap, shape)?;
    }
    Ok(())
}
