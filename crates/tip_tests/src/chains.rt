// The joins of chains, which a stripe buffer gives one by one and direction by direction.
use crate::reference::{DIRECTIONS, PRIMES, buffer_cells, chains, data_cells, is_in};
use crate::stripes::{check_same, encoded, words};
use std::alloc::Global;
use std::process::Abort;
use std::test::Fail;
use tip_code::chain::{Cell, Chain, Direction};
use tip_code::geometry::Geometry;
use tip_code::stop::Stop;
use tip_code::stripe::Stripe;
use tip_element::element::Element;
use tip_element::trace::Trace;
use tip_element::word::Word;

/// What the joins are written over.
const STALE: Word = Word(u64::MAX);

/// The join of a chain, asked for alone. Stop 3: the cells are too few or too many.
fn join_of<E: Element>(
    geometry: Geometry,
    cells: &mut [E],
    chain: Chain,
) -> Result<Option<E>, Stop> {
    if cells.len() != geometry.cells() {
        return Err(Stop::Length);
    }
    let prime = geometry.prime();
    let stripe = Stripe { prime, cells };
    Ok(stripe.chain_join(chain))
}

/// Asks for the joins of a direction together. Stop 3: the cells or the joins are too few or too many.
fn ask_joins<E: Element>(
    geometry: Geometry,
    cells: &mut [E],
    direction: Direction,
    joins: &mut [E],
) -> Result<(), Stop> {
    if cells.len() != geometry.cells() {
        return Err(Stop::Length);
    }
    let prime = geometry.prime();
    let stripe = Stripe { prime, cells };
    stripe.chain_joins(direction, joins)
}

/// The joins of all chains, each asked for alone.
fn alone<E: Element>(heap: Global, geometry: Geometry, cells: &mut [E]) -> Result<Vec<E>, Fail> {
    let mut all = Vec::new(heap);
    for chain in chains(heap, geometry.prime().number)? {
        all.push(join_of(geometry, cells, chain)?.ok_or("no such chain")?)?;
    }
    Ok(all)
}

/// The joins of all chains, those of a direction asked for together.
fn together<E: Element + Clone>(
    heap: Global,
    geometry: Geometry,
    cells: &mut [E],
    stale: E,
) -> Result<Vec<E>, Fail> {
    let mut all = Vec::new(heap);
    for direction in DIRECTIONS {
        let mut joins = vec![in heap; stale; geometry.prime().number - 1]?;
        ask_joins(geometry, cells, direction, &mut joins)?;
        all.extend_from_slice(&joins)?;
    }
    Ok(all)
}

/// Both calls give these joins of all chains.
fn check_joins(
    rt: &impl Abort,
    heap: Global,
    geometry: Geometry,
    cells: &mut [Word],
    wanted: &[Word],
) -> Result<(), Fail> {
    let p = u64::try_from(geometry.prime().number)?;
    check_same(rt, "chain_join", p, &alone(heap, geometry, cells)?, wanted);
    let joins = together(heap, geometry, cells, STALE)?;
    check_same(rt, "chain_joins", p, &joins, wanted);
    Ok(())
}

/// The exclusive or of the cells that are in a chain.
fn xor_of(p: usize, buffer: &[Cell], cells: &[Word], chain: Chain) -> Word {
    let members = buffer.iter().zip(cells);
    Word(
        members
            .filter(|(cell, _)| is_in(p, chain, **cell))
            .fold(0, |all, (_, word)| all ^ word.0),
    )
}

/// The cells hold any words, and not those of an encoded stripe.
#[test]
fn chains_join_their_cells(rt: HostRuntime) -> Result<(), Fail> {
    let heap = rt.alloc();
    for p in PRIMES {
        let geometry = Geometry::new(p, 1)?;
        let buffer = buffer_cells(heap, p)?;
        let mut cells = words(heap, 41, buffer.len())?;
        let join = |chain: &Chain| xor_of(p, &buffer, &cells, *chain);
        let wanted: Vec<Word> = chains(heap, p)?.iter().map(join).collect(heap)?;
        check_joins(&rt, heap, geometry, &mut cells, &wanted)?;
    }
    Ok(())
}

#[test]
fn other_lines_have_no_join(rt: HostRuntime) -> Result<(), Fail> {
    let heap = rt.alloc();
    for p in PRIMES {
        let geometry = Geometry::new(p, 1)?;
        let mut cells = words(heap, 43, geometry.cells())?;
        for direction in DIRECTIONS {
            for line in [p.wrapping_sub(1), p, p.wrapping_add(1), usize::MAX] {
                let chain = Chain { direction, line };
                assert_eq!(rt;
                    join_of(geometry, &mut cells, chain)?,
                    None,
                    "p {p}, {chain:?}"
                );
            }
        }
    }
    Ok(())
}

#[test]
fn chains_of_an_encoded_stripe_join_to_zero(rt: HostRuntime) -> Result<(), Fail> {
    let heap = rt.alloc();
    for p in PRIMES {
        let geometry = Geometry::new(p, 1)?;
        let mut cells = encoded(heap, geometry, &words(heap, 47, geometry.places())?, STALE)?;
        let wanted = vec![in heap; Word(0); geometry.chains()]?;
        check_joins(&rt, heap, geometry, &mut cells, &wanted)?;
    }
    Ok(())
}

/// What is joined into one cell shows in the chains of that cell, and in no other.
fn check_spoiled(
    rt: &impl Abort,
    heap: Global,
    geometry: Geometry,
    whole: &[Word],
    index: usize,
    cell: Cell,
) -> Result<(), Fail> {
    let p = geometry.prime().number;
    let change = Word(0x8000_0000_0000_0001);
    let mut cells = Vec::new(heap);
    cells.extend_from_slice(whole)?;
    let spoiled = cells.get_mut(index).ok_or("no such cell")?;
    *spoiled = spoiled.join(change);
    let join = |chain: &Chain| if is_in(p, *chain, cell) {
        change
    } else {
        Word(0)
    };
    let wanted: Vec<Word> = chains(heap, p)?.iter().map(join).collect(heap)?;
    check_joins(rt, heap, geometry, &mut cells, &wanted)
}

#[test]
fn a_spoiled_cell_shows_in_its_chains(rt: HostRuntime) -> Result<(), Fail> {
    let heap = rt.alloc();
    for p in [5, 7] {
        let geometry = Geometry::new(p, 1)?;
        let whole = encoded(heap, geometry, &words(heap, 53, geometry.places())?, STALE)?;
        for (index, cell) in buffer_cells(heap, p)?.iter().enumerate() {
            check_spoiled(&rt, heap, geometry, &whole, index, *cell)?;
        }
    }
    Ok(())
}

/// A stripe buffer in which each place holds its own number, and each parity nothing.
fn numbered(heap: Global, p: usize) -> Result<Vec<Trace>, Fail> {
    let data = data_cells(heap, p)?;
    let mut all = Vec::new(heap);
    for cell in buffer_cells(heap, p)? {
        all.push(match data.iter().position(|at| *at == cell) {
            Some(place) => Trace::single(place).ok_or("no such number")?,
            None => Trace::zero(),
        })?;
    }
    Ok(all)
}

/// Each join is the set of the places that the parity of its chain covers.
fn check_covered(
    rt: &impl Abort,
    heap: Global,
    p: usize,
    call: &str,
    joins: &[Trace],
) -> Result<(), Fail> {
    let data = data_cells(heap, p)?;
    let chains = chains(heap, p)?;
    assert_eq!(rt; joins.len(), chains.len(), "{call}, p {p}");
    for (chain, join) in chains.iter().zip(joins) {
        for number in 0..128 {
            let wanted = data.get(number).is_some_and(|cell| is_in(p, *chain, *cell));
            assert_eq!(rt;
                join.has(number),
                wanted,
                "{call}, p {p}, {chain:?}, place {number}"
            );
        }
    }
    Ok(())
}

#[test]
fn chains_join_the_places_that_they_cover(rt: HostRuntime) -> Result<(), Fail> {
    let heap = rt.alloc();
    let stale = Trace::single(127).ok_or("no 127")?;
    for p in [3, 5, 7, 11] {
        let geometry = Geometry::new(p, 1)?;
        let mut cells = numbered(heap, p)?;
        let joins = alone(heap, geometry, &mut cells)?;
        check_covered(&rt, heap, p, "chain_join", &joins)?;
        let joins = together(heap, geometry, &mut cells, stale)?;
        check_covered(&rt, heap, p, "chain_joins", &joins)?;
    }
    Ok(())
}

#[test]
fn joins_of_another_number_are_refused(rt: HostRuntime) -> Result<(), Fail> {
    let heap = rt.alloc();
    for p in PRIMES {
        let geometry = Geometry::new(p, 1)?;
        let mut cells = words(heap, 59, geometry.cells())?;
        for direction in DIRECTIONS {
            for count in [p.wrapping_sub(2), p, 0] {
                let mut joins = words(heap, 61, count)?;
                let answer = ask_joins(geometry, &mut cells, direction, &mut joins);
                assert_eq!(rt; answer, Err(Stop::Length), "p {p}, {count} joins");
                check_same(
                    &rt,
                    "chain_joins",
                    p as u64,
                    &joins,
                    &words(heap, 61, count)?,
                );
            }
        }
    }
    Ok(())
}
