// Long lists of calls on arrays over shelves of every kind.
use crate::calls::{check_call, check_format};
use crate::random::Source;
use crate::samples::Sample;
use crate::scoreboard::{Scoreboard, check_held};
use crate::shape::Shape;
use crate::stores::{Store, image};
use std::alloc::Global;
use std::process::Abort;
use std::test::Fail;
use tip_array::array::Array;
use tip_array::calls::{Answer, Outcome};
use tip_code::geometry::Geometry;
use tip_code::stop::Stop;
use tip_element::trace::Trace;
use tip_element::word::Word;
use tip_fault::fault::Fault;
use tip_image::ImageShelf;
use tip_memory::MemoryShelf;
use tip_rotated::Rotated;
use tip_shelf::shelf::Serviced;

/// The layers over a store, the uppermost first.
#[derive(Clone, Copy, PartialEq, Eq, Debug)]
enum Layers {
    Plain,
    Rotated,
    Fault,
    RotatedFault,
    FaultRotated,
}

impl Layers {
    /// Whether columns are turned.
    fn turn(self) -> bool {
        match self {
            Layers::Plain | Layers::Fault => false,
            Layers::Rotated | Layers::RotatedFault | Layers::FaultRotated => true,
        }
    }
}

/// All layers.
const LAYERS: [Layers; 5] = [
    Layers::Plain,
    Layers::Rotated,
    Layers::Fault,
    Layers::RotatedFault,
    Layers::FaultRotated,
];

/// What an outcome is of.
#[derive(Clone, Copy, PartialEq, Eq, Debug)]
enum Kind {
    Read,
    /// A write to a stripe that is whole.
    Written,
    /// A write to a stripe with strips that are out.
    WrittenBeside,
    /// A rebuild that had nothing to do.
    Kept,
    Rebuilt,
    Checked,
    Pulled,
    Fitted,
    Refused(Stop),
}

fn kind_of<E>(outcome: &Outcome<E>) -> Kind {
    match outcome {
        Ok(Answer::Read(_)) => Kind::Read,
        Ok(Answer::Written(0)) => Kind::Written,
        Ok(Answer::Written(_)) => Kind::WrittenBeside,
        Ok(Answer::Rebuilt(0)) => Kind::Kept,
        Ok(Answer::Rebuilt(_)) => Kind::Rebuilt,
        Ok(Answer::Checked(_)) => Kind::Checked,
        Ok(Answer::Pulled) => Kind::Pulled,
        Ok(Answer::Fitted(_)) => Kind::Fitted,
        Err(stop) => Kind::Refused(*stop),
    }
}

/// Lists to be put to arrays: the sizes, how often an array is formatted and how many calls follow each time, the
/// source of what is called, and the kinds of the outcomes so far.
#[derive(Drop)]
struct Trial {
    shape: Shape,
    rounds: usize,
    calls: usize,
    source: Source,
    kinds: Vec<Kind>,
}

impl Trial {
    /// How many strips the array has.
    fn strips(&self) -> usize {
        self.shape.stripes.saturating_mul(self.shape.columns())
    }

    /// The lists are worth their time: calls of every kind are done, on stripes that are whole and on stripes that are
    /// not, and refused.
    fn check_variety(&self, rt: &impl Abort) {
        for wanted in [
            Kind::Read,
            Kind::Written,
            Kind::WrittenBeside,
            Kind::Kept,
            Kind::Rebuilt,
            Kind::Checked,
            Kind::Pulled,
            Kind::Fitted,
            Kind::Refused(Stop::Work),
            Kind::Refused(Stop::Stripe),
            Kind::Refused(Stop::Place),
            Kind::Refused(Stop::Column),
            Kind::Refused(Stop::Lost),
        ] {
            let count = self.kinds.iter().filter(|kind| **kind == wanted).count();
            assert!(rt;
                count >= 10,
                "p = {}, {wanted:?}, {count} times",
                self.shape.p
            );
        }
    }
}

/// A format, and calls that are compared one by one as they are made.
fn check_round<S: Serviced>(
    rt: &impl Abort,
    heap: Global,
    array: &mut Array<S>,
    trial: &mut Trial,
) -> Result<Scoreboard<S::Element>, Fail>
where
    S::Element: Sample,
{
    let shape = trial.shape;
    let mut board = Scoreboard::zero(heap, shape)?;
    check_format(rt, heap, array, shape)?;
    for _ in 0..trial.calls {
        let call = trial.source.call(shape);
        let work = trial.source.work(shape);
        let outcome = check_call(rt, heap, array, &mut board, &call, work)?;
        trial.kinds.push(kind_of(&outcome))?;
    }
    Ok(board)
}

/// Rounds on an array over this shelf. At the end of each, all strips that are held are compared.
fn check_list<S: Serviced + Drop>(
    rt: &impl Abort,
    heap: Global,
    shelf: S,
    trial: &mut Trial,
) -> Result<(), Fail>
where
    S::Element: Sample,
{
    let mut shelf = shelf;
    for _ in 0..trial.rounds {
        let mut array = Array::over(shelf);
        let board = check_round(rt, heap, &mut array, trial)?;
        shelf = array.into_shelf();
        check_held(rt, heap, &mut shelf, &board)?;
    }
    Ok(())
}

/// A fault shelf over this one that loses sixteen devices while its calls are made.
fn planned<S: Serviced + Drop>(below: S, trial: &mut Trial) -> Result<Fault<S>, Stop> {
    let shape = trial.shape;
    let last = trial
        .rounds
        .saturating_mul(trial.calls)
        .saturating_mul(shape.p);
    let mut fault = Fault::over(below);
    for _ in 0..16 {
        let access = trial.source.below(last);
        let device = trial.source.device(shape).min(shape.p);
        fault.plan(u32::try_from(access).unwrap_or(0), device)?;
    }
    Ok(fault)
}

/// Puts the layers over the shelf, and then the list to them.
fn check_layers<S: Serviced + Drop>(
    rt: &impl Abort,
    heap: Global,
    layers: Layers,
    shelf: S,
    trial: &mut Trial,
) -> Result<(), Fail>
where
    S::Element: Sample,
{
    match layers {
        Layers::Plain => check_list(rt, heap, shelf, trial),
        Layers::Rotated => check_list(rt, heap, Rotated { below: shelf }, trial),
        Layers::Fault => check_list(rt, heap, planned(shelf, trial)?, trial),
        Layers::RotatedFault => {
            let below = planned(shelf, trial)?;
            check_list(rt, heap, Rotated { below }, trial)
        }
        Layers::FaultRotated => {
            let below = Rotated { below: shelf };
            check_list(rt, heap, planned(below, trial)?, trial)
        }
    }
}

/// The list over memory of the kind of element.
fn check_memory<E: Sample>(
    rt: &impl Abort,
    heap: Global,
    layers: Layers,
    trial: &mut Trial,
) -> Result<(), Fail> {
    let geometry = Geometry::new(trial.shape.p, trial.shape.stripes)?;
    let strips = trial.strips();
    let statuses = trial.source.statuses(heap, strips)?;
    let mut store: Store<E> = Store::with(heap, trial.shape, statuses)?;
    let shelf = MemoryShelf::new(&geometry, &mut store.cells, &mut store.statuses)?;
    check_layers(rt, heap, layers, shelf, trial)
}

/// The list over an image.
fn check_image(
    rt: &impl Abort,
    heap: Global,
    layers: Layers,
    trial: &mut Trial,
) -> Result<(), Fail> {
    let geometry = Geometry::new(trial.shape.p, trial.shape.stripes)?;
    let strips = trial.strips();
    let statuses = trial.source.statuses(heap, strips)?;
    let mut bytes = image(heap, trial.shape, &statuses)?;
    let shelf = ImageShelf::new(&geometry, &mut bytes)?;
    check_layers(rt, heap, layers, shelf, trial)
}

/// Lists over memory of words, memory of traces, and an image, under all layers.
fn check_stores(rt: &impl Abort, heap: Global, trial: &mut Trial) -> Result<(), Fail> {
    for layers in LAYERS {
        trial.shape.turns = layers.turn();
        check_memory::<Word>(rt, heap, layers, trial)?;
        check_memory::<Trace>(rt, heap, layers, trial)?;
        check_image(rt, heap, layers, trial)?;
    }
    Ok(())
}

/// In lists of calls of all kinds, over shelves of all kinds, each call answers what the scoreboard and the states of
/// the strips say.
#[test]
fn lists_keep_to_the_scoreboard(rt: HostRuntime) -> Result<(), Fail> {
    let heap = rt.alloc();
    for (p, stripes, rounds, calls) in [
        (3, 2, 5, 60),
        (5, 3, 5, 60),
        (7, 3, 4, 60),
        (31, 2, 2, 60),
    ] {
        let mut trial = Trial {
            shape: Shape {
                p,
                stripes,
                turns: false,
            },
            rounds,
            calls,
            source: Source { state: 1 },
            kinds: Vec::new(heap),
        };
        check_stores(&rt, heap, &mut trial)?;
        trial.check_variety(&rt);
    }
    Ok(())
}
