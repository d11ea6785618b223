// Long lists of calls, put to shelves of every kind and to the model.
use crate::calls::{Answer, Call};
use crate::model::{Model, Sizes, Store};
use crate::trials::{LAYERS, Layers, Trial, check_stores};
use std::alloc::{AllocError, Global};
use std::process::Abort;
use std::test::Fail;
use tip_shelf::shelf::State;

/// A source of random-looking numbers.
#[derive(Drop)]
struct Source {
    state: u64,
}

impl Source {
    /// The next number.
    fn number(&mut self) -> u64 {
        self.state = self
            .state
            .wrapping_mul(6364136223846793005)
            .wrapping_add(1442695040888963407);
        self.state ^ (self.state >> 29)
    }

    /// A number below this one.
    fn below(&mut self, count: usize) -> usize {
        let number = (self.number() >> 33) as usize;
        number.checked_rem(count).unwrap_or(0)
    }

    /// A stripe: mostly one there is, and mostly among the first or the last.
    fn stripe(&mut self, stripes: usize) -> usize {
        match self.below(16) {
            0 => usize::MAX,
            1 => stripes,
            2 | 3 => self.below(stripes),
            4..10 => self.below(stripes.min(4)),
            _ => stripes
                .saturating_sub(1)
                .saturating_sub(self.below(stripes.min(4))),
        }
    }

    /// How many elements a restore has: mostly those of a strip.
    fn count(&mut self, rows: usize) -> usize {
        match self.below(16) {
            0 => 0,
            1 => rows.saturating_sub(1),
            2 => rows.saturating_add(1),
            _ => rows,
        }
    }

    /// A call, in range or just beyond.
    fn call(&mut self, sizes: Sizes) -> Call {
        let kind = self.below(48);
        let stripe = self.stripe(sizes.stripes);
        let column = self.below(sizes.columns().saturating_add(1));
        let row = self.below(sizes.rows().saturating_add(1));
        let number = self.number();
        match kind {
            0 => Call::Pull { device: column },
            1..4 => Call::Fit { device: column },
            4..10 => Call::State { stripe, column },
            10..20 => Call::Get {
                stripe,
                column,
                row,
            },
            20..30 => Call::Put {
                stripe,
                column,
                row,
                number,
            },
            30..33 => Call::Erase { stripe, column },
            _ => Call::Restore {
                stripe,
                column,
                count: self.count(sizes.rows()),
                first: number,
            },
        }
    }

    /// A status byte: mostly that of a held strip.
    fn status(&mut self) -> u8 {
        match self.below(10) {
            0 => 0,
            1 => 1,
            2 => 3,
            3 => 255,
            _ => 2,
        }
    }
}

/// What a store holds at the start.
fn filled(heap: Global, sizes: Sizes, source: &mut Source) -> Result<Store, AllocError> {
    let mut statuses = Vec::new(heap);
    for _ in 0..sizes.strips() {
        statuses.push(source.status())?;
    }
    let mut cells = Vec::new(heap);
    for _ in 0..sizes.strips().saturating_mul(sizes.rows()) {
        cells.push(source.number())?;
    }
    Ok(Store { statuses, cells })
}

/// Asks the state and all elements of each strip of a stripe.
fn push_all(calls: &mut Vec<Call>, sizes: Sizes, stripe: usize) -> Result<(), AllocError> {
    for column in 0..sizes.columns() {
        calls.push(Call::State { stripe, column })?;
        for row in 0..sizes.rows() {
            calls.push(Call::Get {
                stripe,
                column,
                row,
            })?;
        }
    }
    Ok(())
}

/// Random-looking calls, and then a look at all strips.
fn listed(
    heap: Global,
    sizes: Sizes,
    count: usize,
    source: &mut Source,
) -> Result<Vec<Call>, AllocError> {
    let mut calls = Vec::new(heap);
    for _ in 0..count {
        calls.push(source.call(sizes))?;
    }
    for stripe in 0..sizes.stripes {
        push_all(&mut calls, sizes, stripe)?;
    }
    Ok(calls)
}

/// Sixteen losses for fault layers, at accesses from 1 on, and no loss for others.
fn lost(
    heap: Global,
    sizes: Sizes,
    layers: Layers,
    source: &mut Source,
) -> Result<Vec<(u32, usize)>, AllocError> {
    let mut losses = Vec::new(heap);
    if layers.lose() {
        for number in 0..16u32 {
            let access = number.wrapping_mul(number).wrapping_add(1);
            losses.push((access, source.below(sizes.columns())))?;
        }
    }
    Ok(losses)
}

/// The trial whose answers are those of the model.
fn modelled(
    heap: Global,
    sizes: Sizes,
    layers: Layers,
    count: usize,
    source: &mut Source,
) -> Result<Trial, AllocError> {
    let before = filled(heap, sizes, source)?;
    let losses = lost(heap, sizes, layers, source)?;
    let mut model = Model {
        sizes,
        turns: layers.turn(),
        store: before.copied()?,
        losses: losses.clone()?,
        accesses: 0,
    };
    let mut script = Vec::new(heap);
    for call in listed(heap, sizes, count, source)? {
        script.push((call, model.ask(call)))?;
    }
    let Model {
        store,
        accesses,
        ..
    } = model;
    Ok(Trial {
        sizes,
        before,
        losses,
        script,
        after: store,
        accesses,
    })
}

/// The list is worth its time: answers of every kind are wanted, and most kinds often.
fn check_variety(rt: &impl Abort, script: &[(Call, Answer)]) {
    for (wanted, least) in [
        (Answer::Told(State::Held), 3),
        (Answer::Told(State::Blank), 1),
        (Answer::Told(State::Absent), 3),
        (Answer::Done, 40),
        (Answer::Out, 50),
        (Answer::Pulled, 3),
        (Answer::Fitted(true), 3),
    ] {
        let count = script
            .iter()
            .filter(|(_, answer)| *answer == wanted)
            .count();
        assert!(rt; count >= least, "{wanted:?}, {count} times");
    }
    let got = script
        .iter()
        .filter(|(_, answer)| matches!(answer, Answer::Got(_)))
        .count();
    assert!(rt; got >= 20, "got {got} times");
}

#[test]
fn shelves_answer_as_the_model(rt: HostRuntime) -> Result<(), Fail> {
    let heap = rt.alloc();
    let mut source = Source { state: 1 };
    for (p, stripes) in [(3, 1), (3, 5), (5, 7), (7, 9), (31, 5)] {
        for layers in LAYERS {
            let trial = modelled(heap, Sizes { p, stripes }, layers, 600, &mut source)?;
            check_variety(&rt, &trial.script);
            check_stores(&rt, heap, layers, &trial)?;
        }
    }
    Ok(())
}

/// The most stripes that there may be.
#[test]
fn many_stripes_answer_as_the_model(rt: HostRuntime) -> Result<(), Fail> {
    let heap = rt.alloc();
    let mut source = Source { state: 2 };
    let sizes = Sizes {
        p: 3,
        stripes: 4096,
    };
    for layers in LAYERS {
        let trial = modelled(heap, sizes, layers, 600, &mut source)?;
        check_stores(&rt, heap, layers, &trial)?;
    }
    Ok(())
}
