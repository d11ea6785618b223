// Every set of at most three lost columns at every prime, with words and with traces.
use crate::reference::PRIMES;
use crate::stripes::{check_same, is_lost, masks, spoiled, traces, whole, words};
use std::alloc::Global;
use std::process::Abort;
use std::test::Fail;
use tip_code::geometry::Geometry;
use tip_code::stop::Stop;
use tip_columns::Columns;
use tip_element::element::Element;
use tip_element::slices::all_zero;
use tip_element::trace::Trace;
use tip_element::word::Word;
use tip_solve::solve::{solve, solve_beside, work_len};

/// The call accepts the lost columns, and the stripe is whole again.
fn check_answer<E: Element + PartialEq>(
    rt: &impl Abort,
    call: &str,
    mask: u64,
    answer: Result<(), Stop>,
    cells: &[E],
    whole: &[E],
) {
    assert_eq!(rt; answer, Ok(()), "{call}, lost {mask:b}");
    check_same(rt, call, mask, cells, whole);
}

/// Spoils the lost columns, solves them with a work buffer that holds something, and holds the stripe to the whole one.
fn check_solved<E: Element + Clone + PartialEq>(
    rt: &impl Abort,
    heap: Global,
    geometry: Geometry,
    whole: &[E],
    mask: u64,
    stale: E,
) -> Result<(), Fail> {
    let mut cells = spoiled(heap, geometry.prime().number, whole, mask, stale)?;
    let mut work = vec![in heap; stale; work_len(geometry)]?;
    let answer = solve(geometry, &mut cells, Columns(mask), &mut work);
    check_answer(rt, "solve", mask, answer, &cells, whole);
    assert!(rt;
        all_zero(&work),
        "the work buffer is cleared, lost {mask:b}"
    );
    Ok(())
}

/// The same of `solve_beside`, with stripe buffer and room as two parts of one work buffer.
fn check_beside<E: Element + Clone + PartialEq>(
    rt: &impl Abort,
    heap: Global,
    geometry: Geometry,
    whole: &[E],
    mask: u64,
    stale: E,
) -> Result<(), Fail> {
    let mut work = spoiled(heap, geometry.prime().number, whole, mask, stale)?;
    work.resize(work_len(geometry), stale)?;
    assert_eq!(rt; work.len(), work_len(geometry), "lost {mask:b}");
    assert!(rt; whole.len() <= work.len());
    let (cells, room) = work.split_at_mut(whole.len());
    let answer = solve_beside(geometry, cells, Columns(mask), room);
    check_answer(rt, "solve_beside", mask, answer, cells, whole);
    Ok(())
}

/// All sets of lost columns, for the stripe of these values.
fn check_sets<E: Element + Clone + PartialEq>(
    rt: &impl Abort,
    heap: Global,
    geometry: Geometry,
    values: &[E],
    stale: E,
) -> Result<(), Fail> {
    let cells = whole(rt, heap, geometry, values, stale)?;
    let p = geometry.prime().number;
    for mask in masks(heap, p)? {
        check_solved(rt, heap, geometry, &cells, mask, stale)?;
        check_beside(rt, heap, geometry, &cells, mask, stale)?;
    }
    Ok(())
}

#[test]
fn words_come_back(rt: HostRuntime) -> Result<(), Fail> {
    let heap = rt.alloc();
    for p in PRIMES {
        let geometry = Geometry::new(p, 1)?;
        let values = words(heap, 5, geometry.places())?;
        check_sets(&rt, heap, geometry, &values, Word(u64::MAX))?;
    }
    Ok(())
}

#[test]
fn traces_come_back(rt: HostRuntime) -> Result<(), Fail> {
    let heap = rt.alloc();
    let stale = Trace::single(127).ok_or("no 127")?;
    for p in PRIMES {
        let geometry = Geometry::new(p, 4096)?;
        let values = traces(heap, 7, geometry.places())?;
        check_sets(&rt, heap, geometry, &values, stale)?;
    }
    Ok(())
}

/// There are 1 + 8 + 28 + 56 sets at p = 7.
#[test]
fn sets_are_counted(rt: HostRuntime) -> Result<(), Fail> {
    assert_eq!(rt; masks(rt.alloc(), 7)?.len(), 93);
    assert_eq!(rt; masks(rt.alloc(), 31)?.len(), 5489);
    Ok(())
}

/// The columns that are not lost hold what they held.
fn check_kept(rt: &impl Abort, p: usize, mask: u64, before: &[Word], after: &[Word]) {
    assert_eq!(rt; before.len(), after.len());
    for (index, (a, b)) in before.iter().zip(after).enumerate() {
        assert!(rt;
            is_lost(p, mask, index) || a == b,
            "p {p}, lost {mask:b}, cell {index}"
        );
    }
}

/// Where the kept columns are those of no encoded stripe, they still stay.
#[test]
fn kept_columns_stay(rt: HostRuntime) -> Result<(), Fail> {
    let heap = rt.alloc();
    for p in PRIMES {
        let geometry = Geometry::new(p, 1)?;
        let before = words(heap, 11, geometry.cells())?;
        let mut work = vec![in heap; Word(9); work_len(geometry)]?;
        for mask in masks(heap, p)? {
            let mut after = before.clone()?;
            solve(geometry, &mut after, Columns(mask), &mut work)?;
            check_kept(&rt, p, mask, &before, &after);
        }
    }
    Ok(())
}
