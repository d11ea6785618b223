// Examples worked by hand.
use crate::reference::at;
use crate::stripes::{encoded, words_of};
use std::alloc::Global;
use std::process::Abort;
use std::test::Fail;
use tip_code::chain::{Chain, Direction, Parities};
use tip_code::geometry::Geometry;
use tip_element::word::Word;

/// The rows of a stripe at p = 5 with 1 to 12 in its places.
const COUNTED: [[u64; 6]; 4] = [
    [1, 12, 2, 3, 8, 0],
    [4, 5, 1, 7, 6, 7],
    [7, 8, 2, 0, 9, 6],
    [10, 1, 11, 12, 1, 13],
];

/// The same once place 4 holds 0: cells (1, 1), (1, 5), (2, 3) and (0, 4) differ.
const CHANGED: [[u64; 6]; 4] = [
    [1, 12, 2, 3, 13, 0],
    [4, 0, 1, 7, 6, 2],
    [7, 8, 2, 5, 9, 6],
    [10, 1, 11, 12, 1, 13],
];

/// Holds a stripe buffer to the rows wanted: cell (r, c) stands at c(p - 1) + r.
fn check_rows<const N: usize>(rt: &impl Abort, got: &[Word], wanted: &[[u64; N]]) {
    assert_eq!(rt; got.len(), wanted.len().wrapping_mul(N));
    for (row, cells) in wanted.iter().enumerate() {
        for (column, value) in cells.iter().enumerate() {
            let index = column.wrapping_mul(wanted.len()).wrapping_add(row);
            assert_eq!(rt; got.get(index), Some(&Word(*value)), "{}", index);
        }
    }
}

/// The stripe of these values at p.
fn stripe(heap: Global, p: usize, values: &[u64]) -> Result<Vec<Word>, Fail> {
    let geometry = Geometry::new(p, 1)?;
    encoded(heap, geometry, &words_of(heap, values)?, Word(99))
}

#[test]
fn stripes(rt: HostRuntime) -> Result<(), Fail> {
    let heap = rt.alloc();
    let counted = stripe(heap, 5, &[1, 2, 3, 4, 5, 6, 7, 8, 9, 10, 11, 12])?;
    check_rows(&rt, &counted, &COUNTED);
    let changed = stripe(heap, 5, &[1, 2, 3, 4, 0, 6, 7, 8, 9, 10, 11, 12])?;
    check_rows(&rt, &changed, &CHANGED);
    check_rows(&rt, &stripe(heap, 5, &[0xff; 12])?, &[[0xff; 6]; 4]);
    check_rows(&rt, &stripe(heap, 3, &[1, 2])?, &[[1; 4], [2; 4]]);
    Ok(())
}

#[test]
fn places_at_five(rt: HostRuntime) -> Result<(), Fail> {
    let geometry = Geometry::new(5, 1)?;
    assert_eq!(rt; geometry.locate(0), Ok(at(0, 0)));
    assert_eq!(rt; geometry.locate(4), Ok(at(1, 1)));
    assert_eq!(rt; geometry.locate(11), Ok(at(3, 3)));
    Ok(())
}

#[test]
fn a_write_concerns_three_parities(rt: HostRuntime) -> Result<(), Fail> {
    let wanted = Parities {
        row: at(1, 5),
        diagonal: at(0, 1),
        antidiagonal: at(2, 2),
    };
    let written = at(1, 4);
    assert_eq!(rt; Geometry::new(5, 1)?.parities(written), Some(wanted));
    Ok(())
}

#[test]
fn a_parity_covers_three_cells(rt: HostRuntime) -> Result<(), Fail> {
    let geometry = Geometry::new(5, 1)?;
    let direction = Direction::Antidiagonal;
    let chain = Chain { direction, line: 0 };
    assert_eq!(rt; geometry.parity(chain), Some(at(0, 4)));
    for row in 0..4 {
        for column in 0..6 {
            let wanted = matches!((row, column), (0, 0) | (1, 1) | (3, 3));
            assert_eq!(rt;
                geometry.covers(chain, at(row, column)),
                wanted,
                "({row}, {column})"
            );
        }
    }
    Ok(())
}
