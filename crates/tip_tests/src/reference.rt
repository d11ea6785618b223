// The rules of a stripe, written out a second time. Of the library only the types that name a cell, a direction and a
// chain are used, and none of its functions. Sums are checked, so that a wrong one ends in `None` and not in another cell.
use std::alloc::{AllocError, Global};
use tip_code::chain::{Cell, Chain, Direction};

/// The primes for which there are stripes.
pub const PRIMES: [usize; 10] = [3, 5, 7, 11, 13, 17, 19, 23, 29, 31];

/// The directions, in the order in which chains are counted.
pub const DIRECTIONS: [Direction; 3] = [
    Direction::Row,
    Direction::Diagonal,
    Direction::Antidiagonal,
];

/// The cell of this row and this column.
pub fn at(row: usize, column: usize) -> Cell {
    Cell { row, column }
}

/// The parity cell of a line: (i, p) of row i, (i, i + 1) of diagonal i and (i, p - 1 - i) of antidiagonal i,
/// for each i from 0 to p - 2.
pub fn parity_cell(p: usize, direction: Direction, line: usize) -> Option<Cell> {
    if line > p.checked_sub(2)? {
        return None;
    }
    let column = match direction {
        Direction::Row => p,
        Direction::Diagonal => line.checked_add(1)?,
        Direction::Antidiagonal => p.checked_sub(1)?.checked_sub(line)?,
    };
    Some(at(line, column))
}

/// The line on which a cell lies: row r, diagonal (r + c) mod p or antidiagonal (r - c) mod p.
pub fn line_of(p: usize, direction: Direction, cell: Cell) -> Option<usize> {
    match direction {
        Direction::Row => Some(cell.row),
        Direction::Diagonal => cell.row.checked_add(cell.column)?.checked_rem(p),
        Direction::Antidiagonal => cell
            .row
            .checked_add(p)?
            .checked_sub(cell.column)?
            .checked_rem(p),
    }
}

/// The parity cell of the line through a data cell.
pub fn parity_through(p: usize, direction: Direction, cell: Cell) -> Option<Cell> {
    parity_cell(p, direction, line_of(p, direction, cell)?)
}

/// Whether the cell is the parity of some line.
fn is_parity(p: usize, cell: Cell) -> bool {
    DIRECTIONS.iter().any(|direction| {
        (0..p).any(|line| parity_cell(p, *direction, line) == Some(cell))
    })
}

/// The data cells in the order of their places: row by row, columns ascending. Two loops show that order more plainly than a
/// `flat_map` of ranges, here and below.
pub fn data_cells(heap: Global, p: usize) -> Result<Vec<Cell>, AllocError> {
    let mut all = Vec::new(heap);
    for row in 0..p.saturating_sub(1) {
        for column in 0..=p {
            if !is_parity(p, at(row, column)) {
                all.push(at(row, column))?;
            }
        }
    }
    Ok(all)
}

/// Whether the cell is the parity of the chain or a data cell on its line.
pub fn is_in(p: usize, chain: Chain, cell: Cell) -> bool {
    let Chain { direction, line } = chain;
    parity_cell(p, direction, line) == Some(cell)
        || (!is_parity(p, cell) && line_of(p, direction, cell) == Some(line))
}

/// All chains in the order of their numbers: direction by direction, lines ascending.
pub fn chains(heap: Global, p: usize) -> Result<Vec<Chain>, AllocError> {
    let mut all = Vec::new(heap);
    for direction in DIRECTIONS {
        for line in 0..p.saturating_sub(1) {
            all.push(Chain { direction, line })?;
        }
    }
    Ok(all)
}

/// All cells in the order of a stripe buffer: column by column, rows ascending.
pub fn buffer_cells(heap: Global, p: usize) -> Result<Vec<Cell>, AllocError> {
    let mut all = Vec::new(heap);
    for column in 0..=p {
        for row in 0..p.saturating_sub(1) {
            all.push(at(row, column))?;
        }
    }
    Ok(all)
}

/// Whether the value of the data cell `from` is part of what `to` holds: it is that cell, or the parity of a line through it.
pub fn reaches(p: usize, from: Cell, to: Cell) -> bool {
    from == to || DIRECTIONS.iter().any(|direction| parity_through(p, *direction, from) == Some(to))
}

/// What a cell holds: the exclusive or of the values that reach it, where `values` holds those of the cells of `data`.
fn expected(p: usize, data: &[Cell], values: &[u64], to: Cell) -> u64 {
    data.iter()
        .zip(values)
        .filter(|(from, _)| reaches(p, **from, to))
        .fold(0, |all, (_, value)| all ^ *value)
}

/// What a stripe buffer is to hold for these values of the places.
pub fn expected_cells(heap: Global, p: usize, values: &[u64]) -> Result<Vec<u64>, AllocError> {
    let data = data_cells(heap, p)?;
    buffer_cells(heap, p)?
        .iter()
        .map(|to| expected(p, &data, values, *to))
        .collect(heap)
}

/// Random-looking numbers. A loop, since each comes of the state that the one before left.
pub fn numbers(heap: Global, seed: u64, count: usize) -> Result<Vec<u64>, AllocError> {
    let mut all = Vec::new(heap);
    let mut state = seed;
    for _ in 0..count {
        state = state
            .wrapping_mul(6364136223846793005)
            .wrapping_add(1442695040888963407);
        all.push(state ^ (state >> 29))?;
    }
    Ok(all)
}
