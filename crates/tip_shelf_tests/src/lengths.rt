// Buffers of other lengths than those of the array.
use crate::calls::{Answer, Call};
use crate::model::{Sizes, Store};
use crate::trials::{LAYERS, Trial, check_layers, check_same};
use std::alloc::{AllocError, Global};
use std::process::Abort;
use std::test::Fail;
use tip_code::geometry::Geometry;
use tip_code::stop::Stop;
use tip_element::word::Word;
use tip_image::ImageShelf;
use tip_memory::MemoryShelf;
use tip_shelf::shelf::State;

/// All calls of a strip that there is by the sizes: it is absent. Four of them are accesses.
fn push_strip(
    script: &mut Vec<(Call, Answer)>,
    sizes: Sizes,
    stripe: usize,
    column: usize,
) -> Result<(), AllocError> {
    let Sizes { p, .. } = sizes;
    let absent = (Call::State { stripe, column }, Answer::Told(State::Absent));
    let get = Call::Get {
        stripe,
        column,
        row: 0,
    };
    let put = Call::Put {
        stripe,
        column,
        row: p.saturating_sub(2),
        number: 99,
    };
    let restore = Call::Restore {
        stripe,
        column,
        count: sizes.rows(),
        first: 99,
    };
    script.push(absent)?;
    for call in [get, put, restore, Call::Erase { stripe, column }] {
        script.push((call, Answer::Out))?;
    }
    script.push(absent)?;
    Ok(())
}

/// Devices are pulled and not fitted, and strips are absent before and after.
fn trial(heap: Global, sizes: Sizes) -> Result<Trial, AllocError> {
    let Sizes { p, stripes } = sizes;
    let mut script = Vec::new(heap);
    push_strip(&mut script, sizes, 0, 0)?;
    for device in [0, 1, p, p.saturating_add(1)] {
        script.push((Call::Fit { device }, Answer::Fitted(false)))?;
        script.push((Call::Pull { device }, Answer::Pulled))?;
        script.push((Call::Fit { device }, Answer::Fitted(false)))?;
    }
    push_strip(&mut script, sizes, stripes.saturating_sub(1), p)?;
    Ok(Trial {
        sizes,
        before: nothing(heap),
        losses: Vec::new(heap),
        script,
        after: nothing(heap),
        accesses: 8,
    })
}

/// A store that no part of these trials looks at.
fn nothing(heap: Global) -> Store {
    Store {
        statuses: Vec::new(heap),
        cells: Vec::new(heap),
    }
}

/// Memory of these lengths is refused by stop 3, or else taken, and nothing is written; where it is refused, no shelf over it has strips.
fn check_memory(
    rt: &impl Abort,
    heap: Global,
    trial: &Trial,
    lengths: (usize, usize),
    stop: Option<Stop>,
) -> Result<(), Fail> {
    let geometry = Geometry::new(trial.sizes.p, trial.sizes.stripes)?;
    let mut cells = vec![in heap; Word(0x0123456789abcdef); lengths.0]?;
    let mut statuses = vec![in heap; 2u8; lengths.1]?;
    let (wanted_cells, wanted_statuses) = (cells.clone()?, statuses.clone()?);
    let answer = MemoryShelf::new(&geometry, &mut cells, &mut statuses).err();
    assert_eq!(rt; answer, stop, "{lengths:?}");
    for layers in LAYERS {
        if stop.is_some() {
            let shelf = MemoryShelf::over(&geometry, &mut cells, &mut statuses);
            check_layers(rt, heap, layers, shelf, trial)?;
        }
        check_same(rt, "cells", &cells, &wanted_cells);
        check_same(rt, "statuses", &statuses, &wanted_statuses);
    }
    Ok(())
}

/// The same of an image.
fn check_image(
    rt: &impl Abort,
    heap: Global,
    trial: &Trial,
    length: usize,
    stop: Option<Stop>,
) -> Result<(), Fail> {
    let geometry = Geometry::new(trial.sizes.p, trial.sizes.stripes)?;
    let mut bytes = vec![in heap; 2u8; length]?;
    let wanted = bytes.clone()?;
    let answer = ImageShelf::new(&geometry, &mut bytes).err();
    assert_eq!(rt; answer, stop, "{length}");
    for layers in LAYERS {
        if stop.is_some() {
            let shelf = ImageShelf::over(&geometry, &mut bytes);
            check_layers(rt, heap, layers, shelf, trial)?;
        }
        check_same(rt, "image", &bytes, &wanted);
    }
    Ok(())
}

/// At p = 5 two stripes have 48 cells in 12 strips, and 396 bytes in an image.
#[test]
fn other_lengths_have_no_strips(rt: HostRuntime) -> Result<(), Fail> {
    let heap = rt.alloc();
    let trial = trial(heap, Sizes { p: 5, stripes: 2 })?;
    for lengths in [
        (0, 0),
        (0, 12),
        (47, 12),
        (49, 12),
        (24, 6),
        (48, 0),
        (48, 11),
        (48, 13),
        (72, 18),
    ] {
        check_memory(&rt, heap, &trial, lengths, Some(Stop::Length))?;
    }
    check_memory(&rt, heap, &trial, (48, 12), None)?;
    for length in [0, 1, 198, 395, 397, 594] {
        check_image(&rt, heap, &trial, length, Some(Stop::Length))?;
    }
    check_image(&rt, heap, &trial, 396, None)?;
    Ok(())
}
