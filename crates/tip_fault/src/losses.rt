// The table of planned losses.
ghost use Rattle.std.specs.Prelude.{◌≤◌};

/// The most losses that are planned.
pub const MOST_LOSSES: usize = 16;

/// A planned loss: the device is pulled before the access of this number.
#[derive(Clone, Copy, PartialEq, Eq, Debug)]
pub struct Loss {
    /// The number of the access, from 1.
    pub access: u32,
    /// The device.
    pub device: usize,
}

/// The planned losses, in the order of the plan: the first `count` of the records. That there are at most sixteen is no fact of the type:
/// such facts cannot stand in a layer over lent memory.
#[derive(Drop)]
pub(crate) struct Losses {
    records: [Loss; MOST_LOSSES],
    count: usize,
}

impl Losses {
    ghost use Rattle.std.specs.Prelude.{◌≡◌, ◌<◌, ◌≤◌, ◌++◌, [], ◌∷◌, length};
    ghost use Rattle.tip_element.specs.Laws.{Exactly};
    ghost use Rattle.tip_fault.specs.Plans.{losses_in};

    /// No losses.
    pub(crate) fn none() -> Losses
        ensures { losses_in result ≡ [] }
    {
        Losses {
            records: [Loss {
                access: 0,
                device: 0,
            }; MOST_LOSSES],
            count: 0,
        }
    }

    /// The losses, as a run.
    pub(crate) fn planned(&self) -> &[Loss]
        ensures { result.now ≡ losses_in self.now }
    {
        &self.records[..self.count.min(MOST_LOSSES)]
    }

    /// Whether there is no room for one more.
    pub(crate) fn is_full(&self) -> bool
        ensures { Exactly result (16 ≤ length (losses_in self.now)) }
    {
        self.count >= MOST_LOSSES
    }

    /// Adds one at the end.
    pub(crate) fn add(&mut self, access: u32, device: usize)
        requires { length (losses_in self.old) < 16 }
        ensures { losses_in self.new ≡ losses_in self.old ++ record { access = access; device = device } ∷ [] }
    {
        let loss = &mut self.records[self.count];
        loss.access = access;
        loss.device = device;
        self.count += 1;
    }
}
