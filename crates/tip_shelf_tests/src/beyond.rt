// Calls beyond the last stripe, column, row or device, and restores of another length: nothing changes, and nothing is an access.
use crate::calls::{Answer, Call};
use crate::model::{Sizes, Store};
use crate::trials::{LAYERS, Trial, check_stores};
use std::alloc::{AllocError, Global};
use std::test::Fail;
use tip_shelf::shelf::State;

/// All calls of a strip that there is not.
fn push_strip(
    script: &mut Vec<(Call, Answer)>,
    sizes: Sizes,
    stripe: usize,
    column: usize,
) -> Result<(), AllocError> {
    let absent = Answer::Told(State::Absent);
    script.push((Call::State { stripe, column }, absent))?;
    push_row(script, stripe, column, 0)?;
    script.push((Call::Erase { stripe, column }, Answer::Out))?;
    push_restore(script, stripe, column, sizes.rows())
}

/// A get and a put that are out.
fn push_row(
    script: &mut Vec<(Call, Answer)>,
    stripe: usize,
    column: usize,
    row: usize,
) -> Result<(), AllocError> {
    let get = Call::Get {
        stripe,
        column,
        row,
    };
    let put = Call::Put {
        stripe,
        column,
        row,
        number: 99,
    };
    script.push((get, Answer::Out))?;
    script.push((put, Answer::Out))?;
    Ok(())
}

/// A restore that is out.
fn push_restore(
    script: &mut Vec<(Call, Answer)>,
    stripe: usize,
    column: usize,
    count: usize,
) -> Result<(), AllocError> {
    let restore = Call::Restore {
        stripe,
        column,
        count,
        first: 99,
    };
    script.push((restore, Answer::Out))?;
    Ok(())
}

/// All calls that are beyond something.
fn beyond(heap: Global, sizes: Sizes) -> Result<Vec<(Call, Answer)>, AllocError> {
    let Sizes { p, stripes } = sizes;
    let (least, most) = (p.saturating_add(1), usize::MAX);
    let mut script = Vec::new(heap);
    for (stripe, column) in [
        (stripes, 0),
        (most, 0),
        (most, p),
        (0, least),
        (0, most),
        (1, most),
        (stripes, least),
        (most, most),
    ] {
        push_strip(&mut script, sizes, stripe, column)?;
    }
    for row in [sizes.rows(), p, most] {
        push_row(&mut script, 1, 1, row)?;
    }
    for count in [0, p.saturating_sub(2), p] {
        push_restore(&mut script, 1, 1, count)?;
    }
    for device in [least, most] {
        script.push((Call::Pull { device }, Answer::Pulled))?;
        script.push((Call::Fit { device }, Answer::Fitted(false)))?;
    }
    Ok(script)
}

/// All strips have the status. In a fault layer every device is planned to be lost before the first access, which never comes.
fn trial(heap: Global, sizes: Sizes, status: u8) -> Result<Trial, AllocError> {
    let cells = sizes.strips().saturating_mul(sizes.rows());
    let before = Store {
        statuses: vec![in heap; status; sizes.strips()]?,
        cells: vec![in heap; 0x0123456789abcdef; cells]?,
    };
    let mut losses = Vec::new(heap);
    for device in 0..sizes.columns() {
        losses.push((1, device))?;
    }
    let after = before.copied()?;
    Ok(Trial {
        sizes,
        before,
        losses,
        script: beyond(heap, sizes)?,
        after,
        accesses: 0,
    })
}

#[test]
fn calls_beyond_change_nothing(rt: HostRuntime) -> Result<(), Fail> {
    let heap = rt.alloc();
    for p in [3, 5] {
        for status in [0, 1, 2, 3] {
            for layers in LAYERS {
                let trial = trial(heap, Sizes { p, stripes: 4 }, status)?;
                check_stores(&rt, heap, layers, &trial)?;
            }
        }
    }
    Ok(())
}
