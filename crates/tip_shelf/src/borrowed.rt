// A shelf behind a reference, so that a layer can stand on a shelf that a caller keeps.
ghost use Rattle.std.specs.Prelude.{◌∷◌};

use super::shelf::{Out, Serviced, Shelf, State};
use tip_code::geometry::Geometry;

/// The shelf itself.
impl<S: Shelf> Shelf for &mut S {
    type Element = S::Element;

    ghost meaning = { λ s. S.meaning s.now };

    ghost lent = { λ s. s.ghost_name ∷ S.lent s.now };

    ghost performs = { λ s k t. S.performs s.now k t.now };

    fn geometry(&self) -> Geometry {
        (**self).geometry()
    }

    fn is_steady(&self) -> bool {
        (**self).is_steady()
    }

    fn state(&mut self, stripe: usize, column: usize) -> State {
        (**self).state(stripe, column)
    }

    fn get(&mut self, stripe: usize, column: usize, row: usize) -> Result<S::Element, Out> {
        (**self).get(stripe, column, row)
    }

    fn put(
        &mut self,
        stripe: usize,
        column: usize,
        row: usize,
        element: S::Element,
    ) -> Result<(), Out> {
        (**self).put(stripe, column, row, element)
    }

    fn erase(&mut self, stripe: usize, column: usize) -> Result<(), Out> {
        (**self).erase(stripe, column)
    }

    fn restore(
        &mut self,
        stripe: usize,
        column: usize,
        elements: &[S::Element],
    ) -> Result<(), Out> {
        (**self).restore(stripe, column, elements)
    }

    ghost sound = { λ s. S.sound s.now };
}

impl<S: Serviced> Serviced for &mut S {
    fn pull(&mut self, device: usize) {
        (**self).pull(device)
    }

    fn fit(&mut self, device: usize) -> bool {
        (**self).fit(device)
    }

    ghost devices = { λ s. S.devices s.now };
}
