// The places, the chains and the cells that they cover, at every prime.
use crate::reference::{
    DIRECTIONS, PRIMES, at, chains, data_cells, line_of, parity_cell, parity_through,
};
use std::process::Abort;
use std::test::Fail;
use tip_code::chain::{Cell, Chain, Direction, Parities};
use tip_code::geometry::Geometry;
use tip_code::stop::Stop;

/// Holds the places to the data cells, and refuses the next place and the last number of all. Here and below p goes beside the geometry
/// that is made of it: the reference asks the library for nothing.
fn check_places(rt: &impl Abort, geometry: Geometry, p: usize, data: &[Cell]) {
    for (place, cell) in data.iter().enumerate() {
        assert_eq!(rt; geometry.locate(place), Ok(*cell), "p {p}, place {place}");
    }
    assert_eq!(rt; geometry.locate(data.len()), Err(Stop::Place), "p {p}");
    assert_eq!(rt; geometry.locate(usize::MAX), Err(Stop::Place), "p {p}");
}

#[test]
fn places_run_row_by_row(rt: HostRuntime) -> Result<(), Fail> {
    for p in PRIMES {
        check_places(&rt, Geometry::new(p, 1)?, p, &data_cells(rt.alloc(), p)?);
    }
    assert_eq!(rt; Stop::Place.number(), 11);
    Ok(())
}

#[test]
fn chains_are_counted_by_direction(rt: HostRuntime) -> Result<(), Fail> {
    for p in PRIMES {
        let geometry = Geometry::new(p, 1)?;
        let chains = chains(rt.alloc(), p)?;
        for (number, chain) in chains.iter().enumerate() {
            assert_eq!(rt; geometry.chain(number), Some(*chain), "{}", p);
        }
        assert_eq!(rt; geometry.chains(), chains.len(), "{}", p);
        assert_eq!(rt; geometry.chain(chains.len()), None, "{}", p);
        assert_eq!(rt; geometry.chain(usize::MAX), None, "{}", p);
    }
    Ok(())
}

#[test]
fn parities_of_chains(rt: HostRuntime) -> Result<(), Fail> {
    for p in PRIMES {
        let geometry = Geometry::new(p, 1)?;
        for direction in DIRECTIONS {
            for line in 0..p.wrapping_mul(2) {
                let parity = geometry.parity(Chain { direction, line });
                assert_eq!(rt; parity, parity_cell(p, direction, line), "{}", p);
            }
            let line = usize::MAX;
            assert_eq!(rt; geometry.parity(Chain { direction, line }), None, "{}", p);
        }
    }
    Ok(())
}

/// The parities that a write to the cell concerns.
fn concerned(p: usize, cell: Cell) -> Option<Parities> {
    Some(Parities {
        row: parity_through(p, Direction::Row, cell)?,
        diagonal: parity_through(p, Direction::Diagonal, cell)?,
        antidiagonal: parity_through(p, Direction::Antidiagonal, cell)?,
    })
}

/// A cell without data has no parities.
fn check_parities(rt: &impl Abort, geometry: Geometry, p: usize, cell: Cell, holds_data: bool) {
    let wanted = if holds_data { concerned(p, cell) } else { None };
    assert_eq!(rt; geometry.parities(cell), wanted, "p {p}, {cell:?}");
}

/// A chain covers the data cells on its line. Lines p - 1 and p are no chains and cover nothing.
fn check_covers(rt: &impl Abort, geometry: Geometry, p: usize, cell: Cell, holds_data: bool) {
    for direction in DIRECTIONS {
        for line in 0..=p {
            let is_there = holds_data && parity_cell(p, direction, line).is_some();
            let wanted = is_there && line_of(p, direction, cell) == Some(line);
            let chain = Chain { direction, line };
            assert_eq!(rt;
                geometry.covers(chain, cell),
                wanted,
                "p {p}, {chain:?}, {cell:?}"
            );
        }
    }
}

/// A stripe buffer has the cells column after column.
fn check_index(rt: &impl Abort, geometry: Geometry, p: usize, cell: Cell) {
    let rows = p.wrapping_sub(1);
    let is_there = cell.row < rows && cell.column <= p;
    let wanted = is_there.then(|| cell.column.wrapping_mul(rows).wrapping_add(cell.row));
    assert_eq!(rt; geometry.index(cell), wanted, "p {p}, {cell:?}");
}

#[test]
fn cells_of_the_stripe_and_near_it(rt: HostRuntime) -> Result<(), Fail> {
    for p in PRIMES {
        let geometry = Geometry::new(p, 1)?;
        let data = data_cells(rt.alloc(), p)?;
        for row in 0..p.wrapping_add(2) {
            for column in 0..p.wrapping_add(2) {
                let holds_data = data.contains(&at(row, column));
                check_parities(&rt, geometry, p, at(row, column), holds_data);
                check_covers(&rt, geometry, p, at(row, column), holds_data);
                check_index(&rt, geometry, p, at(row, column));
            }
        }
    }
    Ok(())
}

#[test]
fn cells_far_from_the_stripe(rt: HostRuntime) -> Result<(), Fail> {
    for p in PRIMES {
        let geometry = Geometry::new(p, 1)?;
        for far in [p.wrapping_mul(2), 1 << 32, usize::MAX - 1, usize::MAX] {
            for cell in [at(far, 0), at(0, far), at(far, far)] {
                check_parities(&rt, geometry, p, cell, false);
                check_covers(&rt, geometry, p, cell, false);
                check_index(&rt, geometry, p, cell);
            }
        }
    }
    Ok(())
}
