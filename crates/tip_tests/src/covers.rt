// The comparison of parities with the places that they cover, and the texts that are shown.
use crate::elements::STOPS;
use crate::stripes::encoded;
use std::alloc::Global;
use std::process::Abort;
use std::test::Fail;
use tip_code::geometry::Geometry;
use tip_code::stop::Stop;
use tip_cover::{Tally, compare, inspect, own_numbers};
use tip_element::element::Element;
use tip_element::trace::Trace;

/// A stripe in which each place holds its own number. The program `tipcover` takes the same steps: a library would have to lend them for
/// the two alone.
fn numbered(heap: Global, geometry: Geometry) -> Result<Vec<Trace>, Fail> {
    let mut values = vec![in heap; Trace::zero(); geometry.places()]?;
    own_numbers(geometry, &mut values)?;
    encoded(heap, geometry, &values, Trace::zero())
}

/// Every chain of the stripe agrees, and there is none past the last.
fn check_all(rt: &impl Abort, geometry: Geometry, cells: &[Trace]) -> Result<(), Fail> {
    let p = geometry.prime();
    for number in 0..geometry.chains() {
        let finding = inspect(geometry, cells, number)?.ok_or("no such chain")?;
        assert!(rt; finding.agrees(), "p {p}, chain {number}");
    }
    let all = geometry.chains();
    let tally = Tally {
        compared: all,
        agreed: all,
    };
    assert_eq!(rt; compare(geometry, cells)?, tally, "p {p}");
    assert!(rt; inspect(geometry, cells, all)?.is_none(), "p {p}");
    assert!(rt; inspect(geometry, cells, usize::MAX)?.is_none(), "p {p}");
    Ok(())
}

#[test]
fn every_parity_agrees(rt: HostRuntime) -> Result<(), Fail> {
    for p in [3, 5, 7, 11] {
        let geometry = Geometry::new(p, 1)?;
        let cells = numbered(rt.alloc(), geometry)?;
        check_all(&rt, geometry, &cells)?;
    }
    Ok(())
}

/// The parity of diagonal 0 at p = 5 stands at index 4, and chain 4 is that diagonal.
#[test]
fn a_wrong_parity_is_shown(rt: HostRuntime) -> Result<(), Fail> {
    let geometry = Geometry::new(5, 1)?;
    let mut cells = numbered(rt.alloc(), geometry)?;
    let wrong = Trace::single(7).ok_or("no 7")?;
    *cells.get_mut(4).ok_or("no cell 4")? = wrong;
    let finding = inspect(geometry, &cells, 4)?.ok_or("no such chain")?;
    assert!(rt; !finding.agrees());
    assert_eq!(rt; compare(geometry, &cells)?.agreed, 11);
    let text = format!(in rt.alloc(); "{finding}")?;
    assert_eq!(rt;
        text.as_str(),
        "diagonal 0: found {7} (1), expected {0, 5, 10} (3)"
    );
    Ok(())
}

/// A refusal of own numbers has this stop, and leaves the values.
fn check_refused(
    rt: &impl Abort,
    heap: Global,
    p: usize,
    count: usize,
    stop: Stop,
) -> Result<(), Fail> {
    let geometry = Geometry::new(p, 1)?;
    let stale = Trace::single(127).ok_or("no 127")?;
    let mut values = vec![in heap; stale; count]?;
    assert_eq!(rt;
        own_numbers(geometry, &mut values),
        Err(stop),
        "p {p}, {count} values"
    );
    for value in &values {
        assert_eq!(rt; *value, stale, "p {p}, {count} values");
    }
    check_not_read(rt, geometry, &values, stop);
    Ok(())
}

/// The same of the calls that read a stripe buffer.
fn check_not_read(rt: &impl Abort, geometry: Geometry, cells: &[Trace], stop: Stop) {
    let count = cells.len();
    let compared = compare(geometry, cells).err();
    assert_eq!(rt; compared, Some(stop), "{count} cells compared");
    let inspected = inspect(geometry, cells, 0).err();
    assert_eq!(rt; inspected, Some(stop), "{count} cells inspected");
}

#[test]
fn other_traces_are_refused(rt: HostRuntime) -> Result<(), Fail> {
    let heap = rt.alloc();
    for count in [0, 1, 11, 13, 23, 25] {
        check_refused(&rt, heap, 5, count, Stop::Length)?;
    }
    for count in [0, 132, 168] {
        check_refused(&rt, heap, 13, count, Stop::Prime)?;
    }
    check_refused(&rt, heap, 31, 0, Stop::Prime)
}

#[test]
fn stops_are_shown(rt: HostRuntime) -> Result<(), Fail> {
    let heap = rt.alloc();
    for (number, stop) in (1u8..).zip(STOPS) {
        let text = format!(in heap; "{stop}")?;
        let start = format!(in heap; "stop {number}:")?;
        assert!(rt; text.starts_with(start.as_str()), "{text}");
    }
    let text = format!(in heap; "{}", Stop::Length)?;
    assert_eq!(rt;
        text.as_str(),
        "stop 3: a buffer has another length than is needed"
    );
    Ok(())
}
