// Stripes to lose columns of, and the sets of columns that they lose. Here and in the other modules `rt` and `heap` are handed on side
// by side: what asserts takes an `impl Abort`, which lends no heap, and both bounds in each signature are no plainer.
use crate::reference::{buffer_cells, chains, data_cells, is_in, numbers};
use std::alloc::{AllocError, Global};
use std::process::Abort;
use std::test::Fail;
use tip_code::chain::Cell;
use tip_code::encode::encode;
use tip_code::geometry::Geometry;
use tip_element::element::Element;
use tip_element::trace::Trace;
use tip_element::word::Word;

/// These numbers as words.
pub fn words_of(heap: Global, values: &[u64]) -> Result<Vec<Word>, AllocError> {
    values.iter().map(|value| Word(*value)).collect(heap)
}

/// Random-looking words.
pub fn words(heap: Global, seed: u64, count: usize) -> Result<Vec<Word>, AllocError> {
    words_of(heap, &numbers(heap, seed, count)?)
}

/// Random-looking traces.
pub fn traces(heap: Global, seed: u64, count: usize) -> Result<Vec<Trace>, Fail> {
    Ok(
        numbers(heap, seed, count)?
            .into_iter()
            .map(|low| Trace {
                low,
                high: low.rotate_left(17) ^ seed,
            })
            .collect(heap)?,
    )
}

/// The set of one index, as a mask; empty where a word has no bit for the index.
pub fn bit(index: usize) -> u64 {
    if index < 64 { 1 << index } else { 0 }
}

/// The masks of all sets of at most three columns from 0 to `last`.
pub fn masks(heap: Global, last: usize) -> Result<Vec<u64>, Fail> {
    let mut all = vec![in heap; 0u64; 1]?;
    for column in 0..=last {
        let more = grown(heap, &all, bit(column))?;
        all.extend_from_slice(&more)?;
    }
    Ok(all)
}

/// The sets of at most two columns with one more.
fn grown(heap: Global, masks: &[u64], bit: u64) -> Result<Vec<u64>, Fail> {
    let few = masks.iter().filter(|mask| mask.count_ones() < 3);
    Ok(few.map(|mask| *mask | bit).collect(heap)?)
}

/// Whether the cell at an index of the stripe buffer is in a column of the set.
pub fn is_lost(p: usize, mask: u64, index: usize) -> bool {
    index
        .checked_div(p.saturating_sub(1))
        .is_some_and(|column| mask & bit(column) != 0)
}

/// The element that a stripe buffer holds in a cell.
fn held<E: Element>(buffer: &[Cell], cells: &[E], cell: Cell) -> Option<E> {
    buffer
        .iter()
        .zip(cells)
        .find(|(at, _)| **at == cell)
        .map(|(_, element)| *element)
}

/// Every chain of an encoded stripe joins to zero.
fn check_chains<E: Element>(
    rt: &impl Abort,
    heap: Global,
    p: usize,
    cells: &[E],
) -> Result<(), Fail> {
    let buffer = buffer_cells(heap, p)?;
    assert_eq!(rt; buffer.len(), cells.len());
    for chain in chains(heap, p)? {
        let members = buffer.iter().zip(cells);
        let all = members
            .filter(|(cell, _)| is_in(p, chain, **cell))
            .fold(E::zero(), |all, (_, element)| all.join(*element));
        assert!(rt; all.is_zero(), "p {p}, {chain:?}");
    }
    Ok(())
}

/// The data cells hold these values.
fn check_data<E: Element + PartialEq>(
    rt: &impl Abort,
    heap: Global,
    p: usize,
    values: &[E],
    cells: &[E],
) -> Result<(), Fail> {
    let buffer = buffer_cells(heap, p)?;
    let data = data_cells(heap, p)?;
    assert_eq!(rt; data.len(), values.len());
    for (cell, value) in data.iter().zip(values) {
        let element = held(&buffer, cells, *cell).ok_or("no such cell")?;
        assert!(rt; element == *value, "p {p}, {cell:?}");
    }
    Ok(())
}

/// Two runs are the same, element by element; where they are not, the call and its case, as the lost columns or a seed, are named.
pub fn check_same<E: Element + PartialEq>(
    rt: &impl Abort,
    call: &str,
    case: u64,
    got: &[E],
    wanted: &[E],
) {
    let count = wanted.len();
    assert_eq!(rt; got.len(), count, "{call}, case {case:b}");
    for (index, (a, b)) in got.iter().zip(wanted).enumerate() {
        assert!(rt;
            a == b,
            "{call}, case {case:b}, {count} elements, index {index}"
        );
    }
}

/// The stripe whose places hold these values, made in a buffer that held `stale` in each cell.
pub fn encoded<E: Element + Clone>(
    heap: Global,
    geometry: Geometry,
    values: &[E],
    stale: E,
) -> Result<Vec<E>, Fail> {
    let count = buffer_cells(heap, geometry.prime().number)?.len();
    let mut cells = vec![in heap; stale; count]?;
    encode(geometry, values, &mut cells)?;
    Ok(cells)
}

/// The stripe of these values, once it is seen that it obeys the rules.
pub fn whole<E: Element + Clone + PartialEq>(
    rt: &impl Abort,
    heap: Global,
    geometry: Geometry,
    values: &[E],
    stale: E,
) -> Result<Vec<E>, Fail> {
    let cells = encoded(heap, geometry, values, stale)?;
    let p = geometry.prime().number;
    check_chains(rt, heap, p, &cells)?;
    check_data(rt, heap, p, values, &cells)?;
    Ok(cells)
}

/// The stripe with something else in its lost columns.
pub fn spoiled<E: Element>(
    heap: Global,
    p: usize,
    cells: &[E],
    mask: u64,
    stale: E,
) -> Result<Vec<E>, Fail> {
    Ok(
        cells
            .iter()
            .enumerate()
            .map(|(index, cell)| if is_lost(p, mask, index) {
                stale
            } else {
                *cell
            })
            .collect(heap)?,
    )
}
