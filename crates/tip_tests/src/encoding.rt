// Encoding: every cell at every prime, and every refusal.
use crate::reference::{PRIMES, buffer_cells, data_cells, expected_cells, numbers, reaches};
use crate::stripes::{check_same, encoded, words, words_of};
use std::alloc::Global;
use std::process::Abort;
use std::test::Fail;
use tip_code::chain::Cell;
use tip_code::encode::encode;
use tip_code::geometry::Geometry;
use tip_code::stop::Stop;
use tip_element::trace::Trace;
use tip_element::word::Word;

/// Encodes these values and holds every cell to the rules.
fn check_words(
    rt: &impl Abort,
    heap: Global,
    p: usize,
    seed: u64,
    values: &[u64],
) -> Result<(), Fail> {
    let geometry = Geometry::new(p, 1)?;
    let got = encoded(heap, geometry, &words_of(heap, values)?, Word(u64::MAX))?;
    let wanted = words_of(heap, &expected_cells(heap, p, values)?)?;
    check_same(rt, "encode", seed, &got, &wanted);
    Ok(())
}

#[test]
fn words_at_every_prime(rt: HostRuntime) -> Result<(), Fail> {
    let heap = rt.alloc();
    for p in PRIMES {
        let count = data_cells(heap, p)?.len();
        for seed in [0, 1, 77, u64::MAX] {
            check_words(&rt, heap, p, seed, &numbers(heap, seed, count)?)?;
        }
    }
    Ok(())
}

/// For each place the set of its own number.
fn numbered_traces(heap: Global, count: usize) -> Result<Vec<Trace>, Fail> {
    (0..count)
        .map(|place| -> Result<Trace, Fail> { Ok(Trace::single(place).ok_or("no such number")?) })
        .try_collect(heap)
}

/// A set holds the places that went into its cell, and no number that no place has.
fn check_trace(rt: &impl Abort, p: usize, data: &[Cell], cell: Cell, got: Trace) {
    for number in 0..128 {
        let wanted = data.get(number).is_some_and(|from| reaches(p, *from, cell));
        assert_eq!(rt; got.has(number), wanted, "p {p}, {cell:?}, place {number}");
    }
}

/// Holds the sets of a stripe buffer to the places that reach each cell.
fn check_traces(
    rt: &impl Abort,
    heap: Global,
    p: usize,
    data: &[Cell],
    got: &[Trace],
) -> Result<(), Fail> {
    let cells = buffer_cells(heap, p)?;
    assert_eq!(rt; got.len(), cells.len(), "p {p}");
    for (cell, set) in cells.iter().zip(got) {
        check_trace(rt, p, data, *cell, *set);
    }
    Ok(())
}

#[test]
fn traces_at_the_small_primes(rt: HostRuntime) -> Result<(), Fail> {
    let heap = rt.alloc();
    let stale = Trace::single(127).ok_or("no 127")?;
    for p in [3, 5, 7, 11] {
        let geometry = Geometry::new(p, 1)?;
        let data = data_cells(heap, p)?;
        let cells = encoded(heap, geometry, &numbered_traces(heap, data.len())?, stale)?;
        check_traces(&rt, heap, p, &data, &cells)?;
    }
    Ok(())
}

/// These lengths are refused, and the cells are left as they were.
fn check_refused(
    rt: &impl Abort,
    heap: Global,
    p: usize,
    places: usize,
    cells: usize,
) -> Result<(), Fail> {
    let geometry = Geometry::new(p, 1)?;
    let mut after = words(heap, 2, cells)?;
    let answer = encode(geometry, &words(heap, 1, places)?, &mut after);
    assert_eq!(rt;
        answer,
        Err(Stop::Length),
        "p {p}, {places} places, {cells} cells"
    );
    assert_eq!(rt;
        after,
        words(heap, 2, cells)?,
        "p {p}, {places} places, {cells} cells"
    );
    Ok(())
}

#[test]
fn other_lengths_are_refused(rt: HostRuntime) -> Result<(), Fail> {
    let heap = rt.alloc();
    for p in PRIMES {
        let n = data_cells(heap, p)?.len();
        let m = buffer_cells(heap, p)?.len();
        for places in [0, 1, n.wrapping_sub(1), n, n.wrapping_add(1), m] {
            for cells in [0, 1, m.wrapping_sub(1), m, m.wrapping_add(1), n] {
                if places != n || cells != m {
                    check_refused(&rt, heap, p, places, cells)?;
                }
            }
        }
    }
    assert_eq!(rt; Stop::Length.number(), 3);
    Ok(())
}
