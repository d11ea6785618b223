// Trials: calls with the answers that are wanted, put to the shelves of every kind, and what their buffers are to hold afterwards.
use crate::calls::{Answer, Call, Sample, ask, elements};
use crate::model::{Sizes, Store};
use std::alloc::Global;
use std::process::Abort;
use std::test::Fail;
use tip_code::geometry::Geometry;
use tip_code::stop::Stop;
use tip_element::trace::Trace;
use tip_element::word::Word;
use tip_fault::fault::Fault;
use tip_image::ImageShelf;
use tip_memory::MemoryShelf;
use tip_rotated::Rotated;
use tip_shelf::shelf::{Serviced, Shelf};

/// The layers over a store, the uppermost first.
#[derive(Clone, Copy, PartialEq, Eq, Debug)]
pub enum Layers {
    Plain,
    Rotated,
    Fault,
    RotatedFault,
    FaultRotated,
}

impl Layers {
    /// Whether columns are turned.
    pub fn turn(self) -> bool {
        match self {
            Layers::Plain | Layers::Fault => false,
            Layers::Rotated | Layers::RotatedFault | Layers::FaultRotated => true,
        }
    }

    /// Whether devices may be planned to be lost.
    pub fn lose(self) -> bool {
        match self {
            Layers::Plain | Layers::Rotated => false,
            Layers::Fault | Layers::RotatedFault | Layers::FaultRotated => true,
        }
    }
}

/// All layers.
pub const LAYERS: [Layers; 5] = [
    Layers::Plain,
    Layers::Rotated,
    Layers::Fault,
    Layers::RotatedFault,
    Layers::FaultRotated,
];

/// What buffers hold before, the calls with their answers, and what the buffers are to hold then. Of a shelf with a fault layer also the
/// planned losses and how many accesses it is to count.
#[derive(Drop)]
pub struct Trial {
    pub sizes: Sizes,
    pub before: Store,
    pub losses: Vec<(u32, usize)>,
    pub script: Vec<(Call, Answer)>,
    pub after: Store,
    pub accesses: u32,
}

/// Two runs are the same, item by item.
pub fn check_same<T: PartialEq>(rt: &impl Abort, what: &str, got: &[T], wanted: &[T]) {
    assert_eq!(rt; got.len(), wanted.len(), "{what}");
    for (index, (a, b)) in got.iter().zip(wanted).enumerate() {
        assert!(rt; a == b, "{what}, index {index}");
    }
}

/// The shelf gives the answers of the script, one after another.
pub fn check_script<S: Serviced>(
    rt: &impl Abort,
    heap: Global,
    what: &str,
    shelf: &mut S,
    script: &[(Call, Answer)],
) -> Result<(), Fail>
where
    S::Element: Sample,
{
    for (number, (call, wanted)) in script.iter().enumerate() {
        let answer = ask(heap, shelf, *call)?;
        assert_eq!(rt; answer, *wanted, "{what}, call {number}, {call:?}");
    }
    Ok(())
}

/// The shelf has the sizes of the trial, is steady or not, and gives the answers.
fn check_shelf<S: Serviced>(
    rt: &impl Abort,
    heap: Global,
    layers: Layers,
    shelf: &mut S,
    trial: &Trial,
) -> Result<(), Fail>
where
    S::Element: Sample,
{
    let Sizes { p, stripes } = trial.sizes;
    assert_eq!(rt; shelf.geometry().prime().number, p);
    assert_eq!(rt; shelf.geometry().stripes(), stripes);
    assert_eq!(rt; shelf.is_steady(), !layers.lose(), "{layers:?}");
    let what = match layers {
        Layers::Plain => "plain",
        Layers::Rotated => "rotated",
        Layers::Fault => "fault",
        Layers::RotatedFault => "rotated over fault",
        Layers::FaultRotated => "fault over rotated",
    };
    check_script(rt, heap, what, shelf, &trial.script)
}

/// A fault shelf over this one, with these losses planned.
fn planned<S: Serviced + Drop>(below: S, losses: &[(u32, usize)]) -> Result<Fault<S>, Stop> {
    let mut fault = Fault::over(below);
    for (access, device) in losses {
        fault.plan(*access, *device)?;
    }
    Ok(fault)
}

/// Puts the layers over the shelf, and then the trial to them.
pub fn check_layers<S: Serviced + Drop>(
    rt: &impl Abort,
    heap: Global,
    layers: Layers,
    shelf: S,
    trial: &Trial,
) -> Result<(), Fail>
where
    S::Element: Sample,
{
    match layers {
        Layers::Plain => {
            let mut plain = shelf;
            check_shelf(rt, heap, layers, &mut plain, trial)?;
        }
        Layers::Rotated => {
            let mut rotated = Rotated { below: shelf };
            check_shelf(rt, heap, layers, &mut rotated, trial)?;
        }
        Layers::Fault => {
            let mut fault = planned(shelf, &trial.losses)?;
            check_shelf(rt, heap, layers, &mut fault, trial)?;
            assert_eq!(rt; fault.accesses(), trial.accesses, "fault");
        }
        Layers::RotatedFault => {
            let below = planned(shelf, &trial.losses)?;
            let mut rotated = Rotated { below };
            check_shelf(rt, heap, layers, &mut rotated, trial)?;
            assert_eq!(rt; rotated.below.accesses(), trial.accesses, "below");
        }
        Layers::FaultRotated => {
            let mut fault = planned(Rotated { below: shelf }, &trial.losses)?;
            check_shelf(rt, heap, layers, &mut fault, trial)?;
            assert_eq!(rt; fault.accesses(), trial.accesses, "above");
        }
    }
    Ok(())
}

/// The trial on a memory shelf of the kind of element.
fn check_memory<E: Sample>(
    rt: &impl Abort,
    heap: Global,
    layers: Layers,
    trial: &Trial,
) -> Result<(), Fail> {
    let geometry = Geometry::new(trial.sizes.p, trial.sizes.stripes)?;
    let mut cells: Vec<E> = elements(heap, &trial.before.cells)?;
    let mut statuses = trial.before.statuses.clone()?;
    let shelf = MemoryShelf::over(&geometry, &mut cells, &mut statuses);
    check_layers(rt, heap, layers, shelf, trial)?;
    check_same(rt, "statuses", &statuses, &trial.after.statuses);
    let wanted: Vec<E> = elements(heap, &trial.after.cells)?;
    check_same(rt, "cells", &cells, &wanted);
    Ok(())
}

/// The trial on an image shelf.
fn check_image(rt: &impl Abort, heap: Global, layers: Layers, trial: &Trial) -> Result<(), Fail> {
    let geometry = Geometry::new(trial.sizes.p, trial.sizes.stripes)?;
    let rows = trial.sizes.rows();
    let mut bytes = trial.before.image(heap, rows)?;
    let shelf = ImageShelf::over(&geometry, &mut bytes);
    check_layers(rt, heap, layers, shelf, trial)?;
    let wanted = trial.after.image(heap, rows)?;
    check_same(rt, "image", &bytes, &wanted);
    Ok(())
}

/// The trial on memory of words, on memory of traces and on an image.
pub fn check_stores(
    rt: &impl Abort,
    heap: Global,
    layers: Layers,
    trial: &Trial,
) -> Result<(), Fail> {
    check_memory::<Word>(rt, heap, layers, trial)?;
    check_memory::<Trace>(rt, heap, layers, trial)?;
    check_image(rt, heap, layers, trial)
}
