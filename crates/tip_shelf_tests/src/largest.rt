// The largest array, in memory: 131,072 strips of 30 elements.
use crate::calls::{Answer, Call, counted, elements};
use crate::model::set;
use crate::trials::{check_same, check_script};
use std::alloc::{AllocError, Global};
use std::process::Abort;
use std::test::Fail;
use tip_code::geometry::Geometry;
use tip_element::word::Word;
use tip_memory::MemoryShelf;
use tip_shelf::shelf::State;

/// The elements of the last strip count up from here.
const FIRST: u64 = 0xf1e2d3c4b5a69788;

/// How many elements come before those of the last strip.
const BEFORE: usize = 3932130;

/// The last device is fitted and its last strip restored.
fn script(heap: Global) -> Result<Vec<(Call, Answer)>, AllocError> {
    let (stripe, column) = (4095, 31);
    let restore = Call::Restore {
        stripe,
        column,
        count: 30,
        first: FIRST,
    };
    let mut script = Vec::new(heap);
    script.push((Call::Fit { device: 31 }, Answer::Fitted(true)))?;
    script.push((restore, Answer::Done))?;
    for (row, number) in counted(heap, 30, FIRST)?.iter().enumerate() {
        let get = Call::Get {
            stripe,
            column,
            row,
        };
        script.push((get, Answer::Got(*number)))?;
    }
    for (stripe, column, state) in [
        (4095, 31, State::Held),
        (4094, 31, State::Blank),
        (0, 31, State::Blank),
        (4095, 30, State::Absent),
        (4096, 31, State::Absent),
    ] {
        script.push((Call::State { stripe, column }, Answer::Told(state)))?;
    }
    Ok(script)
}

/// The strips of the last device are blank, but for the last of them, which is held; all others are absent.
fn statuses_then(heap: Global) -> Result<Vec<u8>, AllocError> {
    let mut statuses = vec![in heap; 0; 131072]?;
    for stripe in 0..4096usize {
        set(&mut statuses, stripe.wrapping_mul(32).wrapping_add(31), 1);
    }
    set(&mut statuses, 131071, 2);
    Ok(statuses)
}

/// Only the last strip has been written.
fn check_cells(rt: &impl Abort, heap: Global, cells: &[Word]) -> Result<(), Fail> {
    assert_eq!(rt; cells.len(), 3932160);
    let (others, last) = cells.split_at(BEFORE);
    assert!(rt; others.iter().all(|cell| cell.0 == 0));
    let wanted: Vec<Word> = elements(heap, &counted(heap, 30, FIRST)?)?;
    check_same(rt, "the last strip", last, &wanted);
    Ok(())
}

#[test]
fn the_last_strip_of_the_largest_array(rt: HostRuntime) -> Result<(), Fail> {
    let heap = rt.alloc();
    let geometry = Geometry::new(31, 4096)?;
    let mut cells = vec![in heap; Word(0); 3932160]?;
    let mut statuses = vec![in heap; 0; 131072]?;
    {
        let mut shelf = MemoryShelf::new(&geometry, &mut cells, &mut statuses)?;
        check_script(&rt, heap, "the largest", &mut shelf, &script(heap)?)?;
    }
    check_cells(&rt, heap, &cells)?;
    check_same(&rt, "statuses", &statuses, &statuses_then(heap)?);
    Ok(())
}
