// A second way to lost columns that shares nothing with the solver: the equations of all chains, each a mask of cells, are brought
// into a form in which every lost cell stands in one of them, alone among the lost. For p up to 7 a stripe has at most 48 cells.
use crate::reference::{buffer_cells, chains, is_in};
use crate::stripes::{bit, is_lost, masks, spoiled, whole, words};
use std::alloc::Global;
use std::process::Abort;
use std::test::Fail;
use tip_code::chain::{Cell, Chain};
use tip_code::geometry::Geometry;
use tip_columns::Columns;
use tip_element::word::Word;
use tip_solve::solve::{solve, work_len};

/// An equation: the cells of its mask join to zero. One that is solved for a lost cell is the only one with that cell.
#[derive(Clone, Copy)]
struct Equation {
    mask: u64,
    solved: Option<u64>,
}

/// The mask of the cells of a chain.
fn mask_of(p: usize, buffer: &[Cell], chain: Chain) -> u64 {
    let members = buffer.iter().enumerate();
    members
        .filter(|(_, cell)| is_in(p, chain, **cell))
        .fold(0, |all, (index, _)| all | bit(index))
}

/// The equations of all chains: the cells of each join to zero.
fn equations(heap: Global, p: usize) -> Result<Vec<Equation>, Fail> {
    let buffer = buffer_cells(heap, p)?;
    let free = |chain: &Chain| Equation {
        mask: mask_of(p, &buffer, *chain),
        solved: None,
    };
    Ok(chains(heap, p)?.iter().map(free).collect(heap)?)
}

/// Solves the first equation that has the cell and is free for it, and joins it into the others that have the cell.
fn solve_for(equations: &mut [Equation], cell: u64) -> Option<()> {
    let index = equations
        .iter()
        .position(|one| one.solved.is_none() && one.mask & cell != 0)?;
    let by = equations[index].mask;
    for one in equations.iter_mut() {
        if one.mask & cell != 0 {
            one.mask ^= by;
        }
    }
    equations[index] = Equation {
        mask: by,
        solved: Some(cell),
    };
    Some(())
}

/// The equations of a stripe, solved for the lost cells.
fn eliminated(heap: Global, p: usize, lost: u64) -> Result<Vec<Equation>, Fail> {
    let mut all = equations(heap, p)?;
    for index in (0..64).filter(|index| is_lost(p, lost, *index)) {
        solve_for(&mut all, bit(index)).ok_or("a lost cell is not decided")?;
    }
    Ok(all)
}

/// The exclusive or of the cells of a mask.
fn xor_of(cells: &[Word], mask: u64) -> u64 {
    let members = cells.iter().enumerate();
    members
        .filter(|(index, _)| mask & bit(*index) != 0)
        .fold(0, |all, (_, word)| all ^ word.0)
}

/// Holds the solved cells to what the elimination says of the kept ones.
fn check_cells(
    rt: &impl Abort,
    heap: Global,
    geometry: Geometry,
    whole: &[Word],
    lost: u64,
) -> Result<(), Fail> {
    let p = geometry.prime().number;
    let mut cells = spoiled(heap, p, whole, lost, Word(3))?;
    let mut work = vec![in heap; Word(3); work_len(geometry)]?;
    solve(geometry, &mut cells, Columns(lost), &mut work)?;
    for Equation { mask, solved } in eliminated(heap, p, lost)? {
        if let Some(cell) = solved {
            assert_eq!(rt;
                xor_of(&cells, cell),
                xor_of(whole, mask ^ cell),
                "p {p}, lost {lost:b}, cell {cell:b}"
            );
        }
    }
    Ok(())
}

#[test]
fn elimination_agrees(rt: HostRuntime) -> Result<(), Fail> {
    let heap = rt.alloc();
    for p in [3, 5, 7] {
        let geometry = Geometry::new(p, 1)?;
        let values = words(heap, 23, geometry.places())?;
        let cells = whole(&rt, heap, geometry, &values, Word(0))?;
        for lost in masks(heap, p)? {
            check_cells(&rt, heap, geometry, &cells, lost)?;
        }
    }
    Ok(())
}
