// Every stop, their order, and what calls leave in their buffers.
use crate::reference::PRIMES;
use crate::stripes::{check_same, words};
use std::alloc::Global;
use std::process::Abort;
use std::test::Fail;
use tip_code::geometry::Geometry;
use tip_code::stop::Stop;
use tip_columns::Columns;
use tip_element::slices::all_zero;
use tip_element::word::Word;
use tip_solve::solve::{room_len, solve, solve_beside, work_len};

/// A call: the sizes, the length of the stripe buffer, the lost columns and the length of the work buffer or room.
#[derive(Clone, Copy)]
struct Call {
    geometry: Geometry,
    cells: usize,
    lost: Columns,
    work: usize,
}

/// The first elements that solving uses are zero, and those beyond are as they were.
fn check_cleared(rt: &impl Abort, before: &[Word], after: &[Word], used: usize) {
    assert_eq!(rt; after.len(), before.len());
    assert!(rt; used <= after.len());
    let (_, kept) = before.split_at(used);
    let (front, beyond) = after.split_at(used);
    for (index, word) in front.iter().enumerate() {
        assert_eq!(rt; word.0, 0, "{used} elements are used, index {index}");
    }
    check_same(rt, "beyond what is used", 0, beyond, kept);
}

/// The call gives the stop and leaves the stripe buffer. Gives what the work buffer or room held before and holds after.
fn check_refused<F: FnOnce(&mut [Word], &mut [Word]) -> Result<(), Stop>>(
    rt: &impl Abort,
    heap: Global,
    call: Call,
    stop: Stop,
    run: F,
) -> Result<(Vec<Word>, Vec<Word>), Fail>
    requires { F.IsAlwaysCallable run }
{
    let cells = words(heap, 1, call.cells)?;
    let before = words(heap, 2, call.work)?;
    let mut cells_after = cells.clone()?;
    let mut after = before.clone()?;
    let answer = run(&mut cells_after, &mut after);
    let (lost, count, long) = (call.lost.0, call.cells, call.work);
    assert_eq!(rt;
        answer,
        Err(stop),
        "lost {lost:b}, {count} cells, {long} of work"
    );
    check_same(rt, "refused", lost, &cells_after, &cells);
    Ok((before, after))
}

/// The call of `solve` gives the stop, leaves the stripe buffer, and clears the work buffer at stop 13 alone.
fn check_stop(rt: &impl Abort, heap: Global, call: Call, stop: Stop) -> Result<(), Fail> {
    let Call { geometry, lost, .. } = call;
    let (before, after) = check_refused(rt, heap, call, stop, |cells, work| {
        solve(geometry, cells, lost, work)
    })?;
    if stop == Stop::Lost {
        check_cleared(rt, &before, &after, work_len(geometry));
    } else {
        check_same(rt, "solve", lost.0, &after, &before);
    }
    Ok(())
}

/// The call of `solve_beside` gives the stop and leaves the stripe buffer.
fn check_stop_beside(rt: &impl Abort, heap: Global, call: Call, stop: Stop) -> Result<(), Fail> {
    let Call { geometry, lost, .. } = call;
    check_refused(rt, heap, call, stop, |cells, room| {
        solve_beside(geometry, cells, lost, room)
    })?;
    Ok(())
}

/// The set of some columns that fit, and where asked a column above p and two more than three.
fn chosen(p: usize, above: bool, many: bool) -> Columns {
    let mut mask = if many { 0b11011 } else { 0b101 };
    if above && p < 63 {
        mask |= 2 << p;
    }
    Columns(mask)
}

/// The length, or one less where it is to be wrong.
fn length(right: usize, is_wrong: bool) -> usize {
    if is_wrong {
        right.saturating_sub(1)
    } else {
        right
    }
}

/// The first stop that fits, in the order of their numbers; a set with a column above p may have too many as well. Each flag is one
/// fault of a call, and any of them may be there.
fn first(cells: bool, work: bool, column: bool, many: bool) -> Option<Stop> {
    [
        (cells, Stop::Length),
        (work, Stop::Work),
        (column, Stop::Column),
        (many, Stop::Lost),
    ]
    .into_iter()
    .find(|(fits, _)| *fits)
    .map(|(_, stop)| stop)
}

/// All sixteen choices of what is wrong; with nothing wrong there is no stop.
fn check_order(rt: &impl Abort, heap: Global, geometry: Geometry) -> Result<(), Fail> {
    for choice in 0..16u8 {
        let wrong_cells = choice & 1 != 0;
        let wrong_work = choice & 2 != 0;
        let above = choice & 4 != 0;
        let many = choice & 8 != 0;
        let Some(stop) = first(wrong_cells, wrong_work, above, many) else {
            continue;
        };
        let call = Call {
            geometry,
            cells: length(geometry.cells(), wrong_cells),
            lost: chosen(geometry.prime().number, above, many),
            work: length(work_len(geometry), wrong_work),
        };
        let beside = Call {
            work: length(room_len(geometry), wrong_work),
            ..call
        };
        check_stop(rt, heap, call, stop)?;
        check_stop_beside(rt, heap, beside, stop)?;
    }
    Ok(())
}

#[test]
fn the_lowest_stop_is_given(rt: HostRuntime) -> Result<(), Fail> {
    for p in [5, 7, 11, 31] {
        check_order(&rt, rt.alloc(), Geometry::new(p, 1)?)?;
    }
    assert_eq!(rt; Stop::Length.number(), 3);
    assert_eq!(rt; Stop::Work.number(), 9);
    assert_eq!(rt; Stop::Column.number(), 12);
    assert_eq!(rt; Stop::Lost.number(), 13);
    Ok(())
}

#[test]
fn other_lengths_are_refused(rt: HostRuntime) -> Result<(), Fail> {
    let heap = rt.alloc();
    for p in PRIMES {
        let geometry = Geometry::new(p, 1)?;
        let call = Call {
            geometry,
            cells: geometry.cells(),
            lost: Columns(0b11),
            work: work_len(geometry),
        };
        let Call { cells, work, .. } = call;
        for cells in [0, 1, cells.saturating_sub(1), cells.saturating_add(1)] {
            check_stop(&rt, heap, Call { cells, ..call }, Stop::Length)?;
        }
        for work in [0, 1, work.saturating_sub(1)] {
            check_stop(&rt, heap, Call { work, ..call }, Stop::Work)?;
        }
    }
    Ok(())
}

/// Columns p + 1, 32, 62 and 63 are above p, in any company; all 64 are too.
#[test]
fn columns_above_p_are_refused(rt: HostRuntime) -> Result<(), Fail> {
    for p in PRIMES {
        let geometry = Geometry::new(p, 1)?;
        for lost in [
            chosen(p, true, false).0,
            1 << 32,
            1 << 62,
            (1 << 63) | 1,
            u64::MAX,
        ] {
            let call = Call {
                geometry,
                cells: geometry.cells(),
                lost: Columns(lost),
                work: work_len(geometry),
            };
            check_stop(&rt, rt.alloc(), call, Stop::Column)?;
        }
    }
    Ok(())
}

/// At p = 3 the only set of four is that of all columns. A longer work buffer keeps what is beyond its first elements.
#[test]
fn four_columns_are_refused(rt: HostRuntime) -> Result<(), Fail> {
    for p in PRIMES {
        let geometry = Geometry::new(p, 1)?;
        for more in [0, 1, 7] {
            let call = Call {
                geometry,
                cells: geometry.cells(),
                lost: Columns(0b1111),
                work: work_len(geometry).saturating_add(more),
            };
            check_stop(&rt, rt.alloc(), call, Stop::Lost)?;
        }
    }
    Ok(())
}

/// An accepted call clears its work buffer, and leaves what is beyond.
#[test]
fn accepted_calls_clear_their_work(rt: HostRuntime) -> Result<(), Fail> {
    let heap = rt.alloc();
    for p in PRIMES {
        let geometry = Geometry::new(p, 1)?;
        for lost in [0, 1, 0b101, 0b111, 0b1110] {
            let before = words(heap, 2, work_len(geometry).saturating_add(7))?;
            let mut cells = words(heap, 1, geometry.cells())?;
            let mut after = before.clone()?;
            solve(geometry, &mut cells, Columns(lost), &mut after)?;
            check_cleared(&rt, &before, &after, work_len(geometry));
        }
    }
    Ok(())
}

/// At p = 5 a work buffer has at least 144 elements, of which a stripe buffer leaves 120.
#[test]
fn work_at_five(rt: HostRuntime) -> Result<(), Fail> {
    let heap = rt.alloc();
    let geometry = Geometry::new(5, 1)?;
    assert_eq!(rt; work_len(geometry), 144);
    assert_eq!(rt; room_len(geometry), 120);
    let mut cells = words(heap, 1, 24)?;
    let mut short = words(heap, 2, 143)?;
    let mut enough = words(heap, 2, 144)?;
    let lost = Columns(0b111);
    assert_eq!(rt;
        solve(geometry, &mut cells, lost, &mut short),
        Err(Stop::Work)
    );
    assert_eq!(rt; solve(geometry, &mut cells, lost, &mut enough), Ok(()));
    assert!(rt; all_zero(&enough));
    Ok(())
}
