// Shows that encoding follows the rules of the stripe: each place holds its own number, so each parity, a join of traces,
// holds the places that it covers. The library compares; this prints.
#![tactic(auto)]

use anyhow::anyhow;
use tip_code::encode::encode;
use tip_code::geometry::Geometry;
use tip_code::prime::PRIMES;
use tip_cover::{LARGEST_TRACED, Tally, compare, inspect, own_numbers};
use tip_element::element::Element;
use tip_element::trace::Trace;

/// Encodes a stripe of own numbers. The tests take the same steps: a library would have to lend them for the two alone.
fn encoded(rt: &HostRuntime, geometry: Geometry) -> anyhow::Result<Vec<Trace>> {
    let heap = rt.alloc();
    let mut values = vec![in heap; Trace::zero(); geometry.places()]?;
    let mut cells = vec![in heap; Trace::zero(); geometry.cells()]?;
    own_numbers(geometry, &mut values)?;
    encode(geometry, &values, &mut cells)?;
    Ok(cells)
}

/// Prints each parity that does not hold what it should: what was found, and what was expected.
fn show_wrong(rt: &HostRuntime, geometry: Geometry, cells: &[Trace]) -> anyhow::Result<()> {
    let p = geometry.prime();
    for number in 0..geometry.chains() {
        let found = inspect(geometry, cells, number)?;
        if let Some(finding) = found.filter(|finding| !finding.agrees()) {
            println!(rt; "p = {p}: {finding}")?;
        }
    }
    Ok(())
}

/// Compares every parity of one stripe, and prints what came of it.
fn show(rt: &HostRuntime, p: usize) -> anyhow::Result<Tally> {
    let geometry = Geometry::new(p, 1)?;
    let cells = encoded(rt, geometry)?;
    let tally = compare(geometry, &cells)?;
    let Tally { compared, agreed } = tally;
    if agreed != compared {
        show_wrong(rt, geometry, &cells)?;
    }
    let places = geometry.places();
    println!(rt; "p = {p}: {places} places, {compared} parities compared, {agreed} agree")?;
    Ok(tally)
}

/// Compares the stripes of all primes whose places a trace can hold, and prints what came of it.
fn main(rt: HostRuntime) -> anyhow::Result<()> {
    let mut all = Tally {
        compared: 0,
        agreed: 0,
    };
    for p in PRIMES.into_iter().filter(|p| *p <= LARGEST_TRACED) {
        let tally = show(&rt, p)?;
        // Nothing bounds the sums for the proof.
        all.compared = all.compared.saturating_add(tally.compared);
        all.agreed = all.agreed.saturating_add(tally.agreed);
    }
    let Tally { compared, agreed } = all;
    println!(rt; "{agreed} of {compared} parities hold just the places that the rules give them")?;
    if agreed != compared {
        return Err(anyhow!("encoding and rules disagree"));
    }
    Ok(())
}
