// Every call of a strip with every kind of status byte: its answer, and what the buffers hold then.
use crate::calls::{Answer, Call};
use crate::model::{Sizes, Store, set};
use crate::trials::{Layers, Trial, check_stores};
use std::alloc::{AllocError, Global};
use std::test::Fail;
use tip_shelf::shelf::State;

/// What row 1 of the strip holds before.
const OLD: u64 = 0x8899aabbccddeeff;

/// What a put writes, and what the elements of a restore count up from.
const NEW: u64 = 0xfedcba9876543210;

/// The calls of the strip at stripe 1 and column 2 and of its device, at p.
fn calls(p: usize) -> [Call; 7] {
    let (stripe, column, row) = (1, 2, 1);
    [
        Call::State { stripe, column },
        Call::Get {
            stripe,
            column,
            row,
        },
        Call::Put {
            stripe,
            column,
            row,
            number: NEW,
        },
        Call::Erase { stripe, column },
        Call::Restore {
            stripe,
            column,
            count: p.saturating_sub(1),
            first: NEW,
        },
        Call::Pull { device: column },
        Call::Fit { device: column },
    ]
}

/// A status byte, and for each of the calls its answer and the status byte that follows.
const TABLE: [(u8, [(Answer, u8); 7]); 5] = [
    (
        0,
        [
            (Answer::Told(State::Absent), 0),
            (Answer::Out, 0),
            (Answer::Out, 0),
            (Answer::Out, 0),
            (Answer::Out, 0),
            (Answer::Pulled, 0),
            (Answer::Fitted(true), 1),
        ],
    ),
    (
        1,
        [
            (Answer::Told(State::Blank), 1),
            (Answer::Out, 1),
            (Answer::Out, 1),
            (Answer::Done, 1),
            (Answer::Done, 2),
            (Answer::Pulled, 0),
            (Answer::Fitted(true), 1),
        ],
    ),
    (
        2,
        [
            (Answer::Told(State::Held), 2),
            (Answer::Got(OLD), 2),
            (Answer::Done, 2),
            (Answer::Done, 1),
            (Answer::Out, 2),
            (Answer::Pulled, 0),
            (Answer::Fitted(true), 2),
        ],
    ),
    (
        3,
        [
            (Answer::Told(State::Absent), 3),
            (Answer::Out, 3),
            (Answer::Out, 3),
            (Answer::Out, 3),
            (Answer::Out, 3),
            (Answer::Pulled, 0),
            (Answer::Fitted(true), 1),
        ],
    ),
    (
        255,
        [
            (Answer::Told(State::Absent), 255),
            (Answer::Out, 255),
            (Answer::Out, 255),
            (Answer::Out, 255),
            (Answer::Out, 255),
            (Answer::Pulled, 0),
            (Answer::Fitted(true), 1),
        ],
    ),
];

/// The number of the strip at a stripe and column 2.
fn strip(p: usize, stripe: usize) -> usize {
    stripe.wrapping_mul(p.wrapping_add(1)).wrapping_add(2)
}

/// The index of the element of the strip of stripe 1, at a row.
fn cell(p: usize, row: usize) -> usize {
    strip(p, 1)
        .wrapping_mul(p.wrapping_sub(1))
        .wrapping_add(row)
}

/// Three stripes with this status byte in column 2, and others around.
fn around(heap: Global, p: usize, status: u8) -> Result<Store, AllocError> {
    let strips = p.saturating_add(1).saturating_mul(3);
    let mut statuses = Vec::new(heap);
    for number in 0..strips {
        let others = [2, 1, 0, 7, 2];
        let other = others.get(number % 5).map_or(0, |other| *other);
        statuses.push(other)?;
    }
    for stripe in 0..3 {
        set(&mut statuses, strip(p, stripe), status);
    }
    let mut cells = Vec::new(heap);
    for number in 0..strips.saturating_mul(p.saturating_sub(1)) as u64 {
        cells.push(number.wrapping_mul(0x123456789abcdef1))?;
    }
    set(&mut cells, cell(p, 1), OLD);
    Ok(Store { statuses, cells })
}

/// What follows: the status byte, in all stripes after a pull or a fit and in one after another call, and the elements of a put or restore
/// that was done.
fn follow(p: usize, call: Call, answer: Answer, status: u8, store: &mut Store) {
    let is_of_device = matches!(call, Call::Pull { .. } | Call::Fit { .. });
    for stripe in 0..3 {
        if stripe == 1 || is_of_device {
            set(&mut store.statuses, strip(p, stripe), status);
        }
    }
    match (call, answer) {
        (Call::Put { .. }, Answer::Done) => set(&mut store.cells, cell(p, 1), NEW),
        (Call::Restore { .. }, Answer::Done) => {
            for row in 0..p.saturating_sub(1) {
                set(&mut store.cells, cell(p, row), NEW.wrapping_add(row as u64));
            }
        }
        _ => {}
    }
}

/// A single call.
fn trial(
    heap: Global,
    p: usize,
    status: u8,
    call: Call,
    wanted: (Answer, u8),
) -> Result<Trial, AllocError> {
    let before = around(heap, p, status)?;
    let mut after = before.copied()?;
    let (answer, then) = wanted;
    follow(p, call, answer, then, &mut after);
    Ok(Trial {
        sizes: Sizes { p, stripes: 3 },
        before,
        losses: Vec::new(heap),
        script: vec![in heap; (call, answer)]?,
        after,
        accesses: 0,
    })
}

#[test]
fn every_call_at_every_status(rt: HostRuntime) -> Result<(), Fail> {
    let heap = rt.alloc();
    for p in [3, 5] {
        for (status, row) in TABLE {
            for (call, wanted) in calls(p).into_iter().zip(row) {
                let trial = trial(heap, p, status, call, wanted)?;
                check_stores(&rt, heap, Layers::Plain, &trial)?;
            }
        }
    }
    Ok(())
}
