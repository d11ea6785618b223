// Status bytes of every value.
use crate::calls::{Answer, Call};
use crate::model::{Sizes, Store};
use crate::trials::{LAYERS, Layers, Trial, check_stores};
use std::alloc::{AllocError, Global};
use std::test::Fail;
use tip_shelf::shelf::State;

/// The sizes of an array with 256 strips, four to a stripe.
const SIZES: Sizes = Sizes { p: 3, stripes: 64 };

/// All 256 status bytes, in another order than their own.
fn all_bytes(heap: Global) -> Result<Vec<u8>, AllocError> {
    let mut all = Vec::new(heap);
    for number in 0..=255u8 {
        all.push(number.wrapping_mul(77).wrapping_add(5))?;
    }
    Ok(all)
}

/// What the status byte of a number says.
fn said(statuses: &[u8], number: usize) -> State {
    match statuses.get(number) {
        Some(2) => State::Held,
        Some(1) => State::Blank,
        _ => State::Absent,
    }
}

/// The number of the strip at a stripe and a column of the shelf.
fn number(turns: bool, stripe: usize, column: usize) -> usize {
    let turned = if turns {
        column.wrapping_add(stripe) % 4
    } else {
        column
    };
    stripe.wrapping_mul(4).wrapping_add(turned)
}

/// The states of all strips, and then a pull of device 2 and a fit of device 1.
fn told(heap: Global, layers: Layers, statuses: &[u8]) -> Result<Vec<(Call, Answer)>, AllocError> {
    let mut script = Vec::new(heap);
    for stripe in 0..64 {
        for column in 0..4 {
            let state = said(statuses, number(layers.turn(), stripe, column));
            script.push((Call::State { stripe, column }, Answer::Told(state)))?;
        }
    }
    script.push((Call::Pull { device: 2 }, Answer::Pulled))?;
    script.push((Call::Fit { device: 1 }, Answer::Fitted(true)))?;
    Ok(script)
}

/// The status bytes after the pull and the fit: column 2 is absent, and what was absent in column 1 is blank.
fn served(heap: Global, statuses: &[u8]) -> Result<Vec<u8>, AllocError> {
    let mut all = Vec::new(heap);
    for (number, status) in statuses.iter().enumerate() {
        all.push(match number % 4 {
            1 => if *status == 2 { 2 } else { 1 },
            2 => 0,
            _ => *status,
        })?;
    }
    Ok(all)
}

fn trial(heap: Global, layers: Layers) -> Result<Trial, AllocError> {
    let statuses = all_bytes(heap)?;
    let script = told(heap, layers, &statuses)?;
    let after = Store {
        statuses: served(heap, &statuses)?,
        cells: vec![in heap; 7; 512]?,
    };
    let before = Store {
        statuses,
        cells: vec![in heap; 7; 512]?,
    };
    Ok(Trial {
        sizes: SIZES,
        before,
        losses: Vec::new(heap),
        script,
        after,
        accesses: 0,
    })
}

#[test]
fn every_byte_says_something(rt: HostRuntime) -> Result<(), Fail> {
    let heap = rt.alloc();
    for layers in LAYERS {
        let trial = trial(heap, layers)?;
        check_stores(&rt, heap, layers, &trial)?;
    }
    Ok(())
}
