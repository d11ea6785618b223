// The kinds of element, and the numbers of the stops.
use std::test::Fail;
use tip_code::stop::Stop;
use tip_element::element::Element;
use tip_element::slices::{all_zero, clear, join_all, join_each};
use tip_element::trace::Trace;
use tip_element::word::Word;

/// All stops, in the order of their numbers.
pub const STOPS: [Stop; 13] = [
    Stop::Prime,
    Stop::Stripes,
    Stop::Length,
    Stop::Losses,
    Stop::Field,
    Stop::Tag,
    Stop::Body,
    Stop::Room,
    Stop::Work,
    Stop::Stripe,
    Stop::Place,
    Stop::Column,
    Stop::Lost,
];

#[test]
fn single_traces(rt: HostRuntime) {
    for n in 0..=130 {
        let Some(trace) = Trace::single(n) else {
            assert!(rt; n >= 128, "{}", n);
            continue;
        };
        assert!(rt; n < 128, "{}", n);
        assert_eq!(rt; trace.count(), 1, "{}", n);
        assert!(rt; !trace.is_zero(), "{}", n);
        assert!(rt; !trace.has(usize::MAX), "{}", n);
        for m in 0..=130 {
            assert_eq!(rt; trace.has(m), m == n, "{m} in {n}");
        }
    }
    assert_eq!(rt; Trace::single(usize::MAX), None);
}

/// The set of the multiples of a number, with how many they are. A loop, since it makes both at once.
fn multiples(of: usize) -> Result<(Trace, u32), Fail> {
    let mut all = Trace::zero();
    let mut count = 0u32;
    for n in 0..128usize {
        if n.checked_rem(of) == Some(0) {
            all = all.join(Trace::single(n).ok_or("no such number")?);
            count = count.wrapping_add(1);
        }
    }
    Ok((all, count))
}

#[test]
fn joins_of_traces(rt: HostRuntime) -> Result<(), Fail> {
    let (twos, _) = multiples(2)?;
    for step in 1..=130 {
        let (all, count) = multiples(step)?;
        assert_eq!(rt; all.count(), count, "{}", step);
        let both = all.join(twos);
        let is_left = |n: usize| n < 128 && (n.checked_rem(step) == Some(0)) != (n % 2 == 0);
        for n in 0..=130 {
            assert_eq!(rt; both.has(n), is_left(n), "{n} by {step}");
        }
        let left = (0..=130).filter(|n| is_left(*n)).count();
        assert_eq!(rt; both.count() as usize, left, "{}", step);
        assert_eq!(rt; both.is_zero(), step == 2, "{}", step);
        assert_eq!(rt; both.join(twos), all, "{}", step);
    }
    Ok(())
}

#[test]
fn zero_elements(rt: HostRuntime) {
    assert!(rt; Trace::zero().is_zero());
    assert_eq!(rt; Trace::zero().count(), 0);
    assert!(rt; Word::zero().is_zero());
    assert_eq!(rt; Word::zero(), Word(0));
    for place in 0..64u32 {
        let bit = 1u64 << place;
        assert!(rt; !Word(bit).is_zero(), "{}", bit);
        assert!(rt; Word(bit).join(Word(bit)).is_zero(), "{}", bit);
        assert_eq!(rt; Word(bit).join(Word(u64::MAX)), Word(!bit));
    }
    assert_eq!(rt; Word(0b1100).join(Word(0b1010)), Word(0b0110));
}

/// Beyond the shorter of two runs the elements stay.
#[test]
fn runs_are_joined(rt: HostRuntime) {
    let others = [Word(1), Word(6), Word(0xf0)];
    let mut long = [Word(5), Word(6), Word(0xff), Word(9)];
    let mut short = [Word(5)];
    assert_eq!(rt; join_all(&others), Word(0xf7));
    join_each(&mut long, &others);
    assert_eq!(rt; long, [Word(4), Word(0), Word(0x0f), Word(9)]);
    join_each(&mut short, &others);
    assert_eq!(rt; short, [Word(4)]);
}

#[test]
fn runs_are_cleared(rt: HostRuntime) {
    let mut words = [Word(0), Word(0), Word(7)];
    assert!(rt; !all_zero(&words));
    clear(&mut words);
    assert!(rt; all_zero(&words));
    assert_eq!(rt; words, [Word(0); 3]);
}

#[test]
fn empty_runs_are_zero(rt: HostRuntime) {
    let none: [Word; 0] = [];
    assert!(rt; all_zero(&none));
    assert_eq!(rt; join_all(&none), Word(0));
}

#[test]
fn stops_are_numbered(rt: HostRuntime) {
    for (number, stop) in (1u8..).zip(STOPS) {
        assert_eq!(rt; stop.number(), number, "{}", number);
    }
    assert_eq!(rt; STOPS.len(), 13);
}
