// Planned losses: when they come, and which plans are refused.
use crate::calls::{Answer, Call};
use crate::model::{Sizes, Store};
use crate::trials::{Layers, Trial, check_stores};
use std::alloc::{AllocError, Global};
use std::process::Abort;
use std::test::Fail;
use tip_code::geometry::Geometry;
use tip_code::stop::Stop;
use tip_element::word::Word;
use tip_fault::fault::Fault;
use tip_fault::losses::Loss;
use tip_memory::MemoryShelf;
use tip_shelf::shelf::{Serviced, State};

/// The state of a strip.
fn state(stripe: usize, column: usize, state: State) -> (Call, Answer) {
    (Call::State { stripe, column }, Answer::Told(state))
}

/// A get at row 0 of stripe 0, which holds the number of its column.
fn get(column: usize, answer: Answer) -> (Call, Answer) {
    let call = Call::Get {
        stripe: 0,
        column,
        row: 0,
    };
    (call, answer)
}

/// A put at row 1 of stripe 1.
fn put(column: usize, answer: Answer) -> (Call, Answer) {
    let call = Call::Put {
        stripe: 1,
        column,
        row: 1,
        number: 77,
    };
    (call, answer)
}

/// A restore of stripe 0, with 50 and 51.
fn restore(column: usize, answer: Answer) -> (Call, Answer) {
    let call = Call::Restore {
        stripe: 0,
        column,
        count: 2,
        first: 50,
    };
    (call, answer)
}

/// A get beyond the last row, a put beyond the last stripe, a restore of another length and an erase beyond the last column, of which
/// none is an access.
fn no_accesses() -> [(Call, Answer); 4] {
    let get = Call::Get {
        stripe: 0,
        column: 1,
        row: 2,
    };
    let put = Call::Put {
        stripe: 2,
        column: 1,
        row: 1,
        number: 77,
    };
    let restore = Call::Restore {
        stripe: 0,
        column: 1,
        count: 3,
        first: 50,
    };
    let erase = Call::Erase {
        stripe: 0,
        column: 4,
    };
    [get, put, restore, erase].map(|call| (call, Answer::Out))
}

/// At p = 3, two stripes that are held, where column c has c in each cell.
fn held(heap: Global) -> Result<Store, AllocError> {
    let mut cells = Vec::new(heap);
    for _ in 0..2 {
        cells.extend_from_slice(&[0, 0, 1, 1, 2, 2, 3, 3])?;
    }
    Ok(Store {
        statuses: vec![in heap; 2; 8]?,
        cells,
    })
}

/// The trial of a plan and a script on the two stripes, with what follows.
fn check(
    rt: &impl Abort,
    heap: Global,
    losses: &[(u32, usize)],
    script: &[(Call, Answer)],
    after: Store,
    accesses: u32,
) -> Result<(), Fail> {
    let trial = Trial {
        sizes: Sizes { p: 3, stripes: 2 },
        before: held(heap)?,
        losses: Vec::from_slice(heap, losses)?,
        script: Vec::from_slice(heap, script)?,
        after,
        accesses,
    };
    check_stores(rt, heap, Layers::Fault, &trial)
}

/// Device 0 is lost at the first access and devices 2 and 3 at the fifth and last; accesses 0 and 6 never come.
#[test]
fn losses_come_before_their_accesses(rt: HostRuntime) -> Result<(), Fail> {
    let heap = rt.alloc();
    let mut script = Vec::new(heap);
    script.push(state(0, 0, State::Held))?;
    script.extend_from_slice(&no_accesses())?;
    script.push(state(1, 0, State::Held))?;
    script.push(get(0, Answer::Out))?;
    script.push(state(0, 0, State::Absent))?;
    script.push(state(1, 0, State::Absent))?;
    script.push((
        Call::Erase {
            stripe: 0,
            column: 1,
        },
        Answer::Done,
    ))?;
    script.push(restore(1, Answer::Done))?;
    script.push(get(2, Answer::Got(2)))?;
    script.extend_from_slice(&no_accesses())?;
    script.push(state(0, 2, State::Held))?;
    script.push(put(2, Answer::Out))?;
    script.push(state(0, 2, State::Absent))?;
    script.push(state(1, 3, State::Absent))?;
    script.push(state(0, 1, State::Held))?;
    let mut after = held(heap)?;
    after.statuses = Vec::from_slice(heap, &[0, 2, 0, 0, 0, 2, 0, 0])?;
    after.cells = Vec::from_slice(heap, &[0, 0, 50, 51, 2, 2, 3, 3, 0, 0, 1, 1, 2, 2, 3, 3])?;
    let losses = [(1, 0), (5, 2), (0, 1), (5, 3), (6, 1)];
    check(&rt, heap, &losses, &script, after, 5)
}

/// Device 1 is lost at access 1 and, once it is fitted and restored, at access 3 again, for which it is planned twice. Pulls and fits are
/// no accesses.
#[test]
fn fitted_devices_are_lost_again(rt: HostRuntime) -> Result<(), Fail> {
    let heap = rt.alloc();
    let fit = Call::Fit { device: 1 };
    let mut script = Vec::new(heap);
    script.push(put(1, Answer::Out))?;
    script.push((fit, Answer::Fitted(true)))?;
    script.push((fit, Answer::Fitted(true)))?;
    script.push(state(0, 1, State::Blank))?;
    script.push(restore(1, Answer::Done))?;
    script.push(state(0, 1, State::Held))?;
    script.push((Call::Pull { device: 0 }, Answer::Pulled))?;
    script.push(get(1, Answer::Out))?;
    script.push(state(0, 1, State::Absent))?;
    script.push(state(1, 1, State::Absent))?;
    script.push((fit, Answer::Fitted(true)))?;
    script.push(restore(1, Answer::Done))?;
    script.push(get(1, Answer::Got(50)))?;
    let mut after = held(heap)?;
    after.statuses = Vec::from_slice(heap, &[0, 2, 2, 2, 0, 1, 2, 2])?;
    after.cells = Vec::from_slice(heap, &[0, 0, 50, 51, 2, 2, 3, 3, 0, 0, 1, 1, 2, 2, 3, 3])?;
    let losses = [(3, 1), (1, 1), (3, 1)];
    check(&rt, heap, &losses, &script, after, 5)
}

/// A device above p is refused while there is room, and then nothing is planned.
fn check_columns<S: Serviced>(rt: &impl Abort, fault: &mut Fault<S>, count: usize) {
    for device in [4, 5, usize::MAX] {
        assert_eq!(rt; fault.plan(1, device), Err(Stop::Column), "{device}");
        assert_eq!(rt; fault.planned().len(), count, "{device}");
    }
}

/// Sixteen losses are planned, one after another, and no more.
fn check_plans<S: Serviced>(rt: &impl Abort, fault: &mut Fault<S>) {
    for number in 0..16u32 {
        check_columns(rt, fault, number as usize);
        let device = (number % 4) as usize;
        assert_eq!(rt; fault.plan(number, device), Ok(()), "{number}");
    }
    for device in [0, 3, 4, usize::MAX] {
        assert_eq!(rt; fault.plan(1, device), Err(Stop::Losses), "{device}");
    }
}

/// What is planned stands in the order of the plan.
fn check_planned(rt: &impl Abort, losses: &[Loss]) {
    assert_eq!(rt; losses.len(), 16);
    for (number, loss) in losses.iter().enumerate() {
        assert_eq!(rt; loss.access as usize, number);
        assert_eq!(rt; loss.device, number % 4);
    }
}

#[test]
fn sixteen_losses_are_planned(rt: HostRuntime) -> Result<(), Fail> {
    let heap = rt.alloc();
    let geometry = Geometry::new(3, 2)?;
    let mut cells = vec![in heap; Word(1); 16]?;
    let mut statuses = vec![in heap; 2u8; 8]?;
    let shelf = MemoryShelf::over(&geometry, &mut cells, &mut statuses);
    let mut fault = Fault::over(shelf);
    check_plans(&rt, &mut fault);
    check_planned(&rt, fault.planned());
    assert_eq!(rt; fault.accesses(), 0);
    assert_eq!(rt; Stop::Losses.number(), 4);
    assert_eq!(rt; Stop::Column.number(), 12);
    assert_eq!(rt; Stop::Length.number(), 3);
    Ok(())
}
