// Lists that are run at once.
use crate::calls::{check_work, used_work};
use crate::random::Source;
use crate::samples::check_same;
use crate::shape::Shape;
use crate::stores::Store;
use std::alloc::{AllocError, Global};
use std::process::Abort;
use std::test::Fail;
use tip_array::array::Array;
use tip_array::calls::Call;
use tip_array::run::Report;
use tip_code::geometry::Geometry;
use tip_code::stop::Stop;
use tip_element::word::Word;
use tip_fault::fault::Fault;
use tip_memory::MemoryShelf;
use tip_rotated::Rotated;
use tip_shelf::shelf::Serviced;

/// Which devices are lost, and at which access.
const LOSSES: [(u32, usize); 5] = [(7, 1), (150, 2), (300, 0), (400, 3), (500, 1)];

/// Random-looking calls.
fn listed(heap: Global, shape: Shape) -> Result<Vec<Call<Word>>, AllocError> {
    let mut source = Source { state: 4 };
    let mut calls = Vec::new(heap);
    for _ in 0..60 {
        calls.push(source.call(shape))?;
    }
    Ok(calls)
}

/// A fault shelf over this one that loses devices.
fn losing<S: Serviced + Drop>(below: S) -> Result<Fault<S>, Stop> {
    let mut fault = Fault::over(below);
    for (access, device) in LOSSES {
        fault.plan(access, device)?;
    }
    Ok(fault)
}

/// Makes half of the calls at once, and then the others at once.
fn run<S: Serviced<Element = Word>>(
    rt: &impl Abort,
    heap: Global,
    array: &mut Array<S>,
    shape: Shape,
    calls: &[Call<Word>],
) -> Result<Report<Word>, Fail> {
    let mut work = used_work(heap, shape.work().saturating_add(3))?;
    let (first, others) = calls.split_at(calls.len() / 2);
    let mut report = array.format_and_run(heap, first, &mut work)?;
    for outcome in array.run(heap, others, &mut work)? {
        report.outcomes.push(outcome)?;
    }
    check_work(rt, &work, shape.work());
    Ok(report)
}

/// Makes the calls one by one.
fn serve<S: Serviced<Element = Word>>(
    heap: Global,
    array: &mut Array<S>,
    shape: Shape,
    calls: &[Call<Word>],
) -> Result<Report<Word>, Fail> {
    let mut work = used_work(heap, shape.work())?;
    let out = array.format(&mut work)?;
    let mut outcomes = Vec::new(heap);
    for call in calls {
        outcomes.push(array.serve(call, &mut work))?;
    }
    Ok(Report { out, outcomes })
}

/// A list on two arrays: each answers the same, and leaves the same in memory.
fn check_run(rt: &impl Abort, heap: Global, shape: Shape) -> Result<(), Fail> {
    let geometry = Geometry::new(shape.p, shape.stripes)?;
    let calls = listed(heap, shape)?;
    let mut left: Store<Word> = Store::blank(heap, shape)?;
    let mut right: Store<Word> = Store::blank(heap, shape)?;
    {
        let below = MemoryShelf::new(&geometry, &mut left.cells, &mut left.statuses)?;
        let mut array = Array::over(losing(Rotated { below })?);
        let got = run(rt, heap, &mut array, shape, &calls)?;
        let below = MemoryShelf::new(&geometry, &mut right.cells, &mut right.statuses)?;
        let mut array = Array::over(losing(Rotated { below })?);
        let wanted = serve(heap, &mut array, shape, &calls)?;
        assert_eq!(rt; got.out, wanted.out);
        check_same(rt, "outcomes", &got.outcomes, &wanted.outcomes);
    }
    check_same(rt, "cells", &left.cells, &right.cells);
    check_same(rt, "statuses", &left.statuses, &right.statuses);
    Ok(())
}

/// A list that is run at once answers and leaves what its calls do one by one, whose answers other tests look at. The
/// calls before and after a break between two runs are those of one list.
#[test]
fn runs_are_their_calls(rt: HostRuntime) -> Result<(), Fail> {
    let heap = rt.alloc();
    for p in [3, 5, 7] {
        let shape = Shape {
            p,
            stripes: 2,
            turns: true,
        };
        check_run(&rt, heap, shape)?;
    }
    Ok(())
}
