//! The rotated shelf: its columns turn over those of a shelf below, one further with each stripe.
#![tactic(auto)]

ghost use Rattle.std.specs.Prelude.{◌≡◌, ◌<◌, ◌≤◌, IfSome, IfNone};
ghost use Rattle.tip_shelf.specs.Performing.{Performed};
ghost use Rattle.tip_rotated.specs.Turning.{turned, rotated, Turned};
ghost use Rattle.tip_rotated.specs.Laws.{sound_rotated, devices_rotated};

use tip_code::geometry::Geometry;
use tip_shelf::shelf::{Out, Serviced, Shelf, State};

/// A layer over any shelf: column c of stripe s is column (c + s) mod (p + 1) of the shelf below, so that the parity columns are spread
/// over all devices.
#[derive(Drop)]
pub struct Rotated<S> {
    /// The shelf that it stands on.
    pub below: S,
}

impl<S: Shelf> Rotated<S> {
    /// The column of the shelf below that a column of a stripe turns into, or none for a column beyond p.
    fn turned(&self, stripe: usize, column: usize) -> Option<usize>
        ensures some { IfSome result (λ d. (column ≤ (S.meaning self.now.below).prime) × (d ≡ turned (S.meaning self.now.below).prime stripe column)) }
        ensures none { IfNone result ((S.meaning self.now.below).prime < column) }
    {
        let p = self.below.geometry().prime().number;
        (column <= p).then(|| (column + stripe % (p + 1)) % (p + 1))
    }
}

impl<S: Shelf> Shelf for Rotated<S> {
    type Element = S::Element;

    ghost meaning = { λ s. rotated (S.meaning s.below) };

    ghost lent = { λ s. S.lent s.below };

    ghost performs = { λ s k t. Turned (S.meaning s.below).prime (Performed S.meaning S.performs) s.below k t.below };

    fn geometry(&self) -> Geometry {
        self.below.geometry()
    }

    fn is_steady(&self) -> bool {
        self.below.is_steady()
    }

    fn state(&mut self, stripe: usize, column: usize) -> State {
        match self.turned(stripe, column) {
            Some(turned) => self.below.state(stripe, turned),
            None => State::Absent,
        }
    }

    fn get(&mut self, stripe: usize, column: usize, row: usize) -> Result<S::Element, Out> {
        let turned = self.turned(stripe, column).ok_or(Out)?;
        self.below.get(stripe, turned, row)
    }

    fn put(
        &mut self,
        stripe: usize,
        column: usize,
        row: usize,
        element: S::Element,
    ) -> Result<(), Out> {
        let turned = self.turned(stripe, column).ok_or(Out)?;
        self.below.put(stripe, turned, row, element)
    }

    fn erase(&mut self, stripe: usize, column: usize) -> Result<(), Out> {
        let turned = self.turned(stripe, column).ok_or(Out)?;
        self.below.erase(stripe, turned)
    }

    fn restore(
        &mut self,
        stripe: usize,
        column: usize,
        elements: &[S::Element],
    ) -> Result<(), Out> {
        let turned = self.turned(stripe, column).ok_or(Out)?;
        self.below.restore(stripe, turned, elements)
    }

    ghost sound = { λ s. sound_rotated (S.sound s.below) };
}

impl<S: Serviced> Serviced for Rotated<S> {
    fn pull(&mut self, device: usize) {
        self.below.pull(device)
    }

    fn fit(&mut self, device: usize) -> bool {
        self.below.fit(device)
    }

    ghost devices = { λ s. devices_rotated (S.devices s.below) };
}
