// An array: a shelf that is reached through the calls of an array alone.
ghost use Rattle.std.specs.Prelude.{◌≡◌};
ghost use Rattle.tip_shelf.specs.Calls.{Shaped, Told};
ghost use Rattle.tip_solve.specs.Solving.{work_in};

use tip_code::geometry::Geometry;
use tip_shelf::shelf::{Shelf, State};
use tip_solve::solve::work_len;

/// An array of columns, over the shelf that it owns, or that a caller lends by `&mut`. Nobody else reaches the shelf
/// while there is an array over it, so what the shelf means changes by format, read, write, rebuild, check, pull and
/// fit alone. Between calls an array keeps nothing but its shelf.
#[derive(Drop)]
pub struct Array<S> {
    pub(crate) shelf: S,
}

impl<S: Shelf> Array<S> {
    /// The array over a shelf, as the shelf is. Whether its strips are those of encodings depends on the shelf; an
    /// accepted `format` makes them so.
    pub fn over(shelf: S) -> Array<S>
        ensures { result.shelf ≡ shelf }
    {
        Array { shelf }
    }

    /// The shelf, as the calls left it.
    pub fn into_shelf(self) -> S
        ensures { result ≡ self.shelf }
    {
        let Array { shelf } = self;
        shelf
    }

    /// The prime p and the number of stripes.
    pub fn geometry(&self) -> Geometry
        ensures { Shaped (S.meaning self.now.shelf) result }
    {
        self.shelf.geometry()
    }

    /// How many elements a work buffer has at least, 4(p + 1)(p + 1).
    pub fn work_len(&self) -> usize
        ensures { result ≡ work_in (S.meaning self.now.shelf).prime }
    {
        work_len(self.shelf.geometry())
    }

    /// Whether no strip is lost but by a pull.
    pub fn is_steady(&self) -> bool
        ensures { result ≡ (S.meaning self.now.shelf).steady }
    {
        self.shelf.is_steady()
    }

    /// Tells whether a strip is held, blank or absent, and changes nothing. Beyond the last stripe or column it is
    /// absent.
    pub fn state(&mut self, stripe: usize, column: usize) -> State
        ensures told { Told (S.meaning self.old.shelf) (S.meaning self.new.shelf) stripe column result }
        ensures lent { S.lent self.new.shelf ≡ S.lent self.old.shelf }
    {
        self.shelf.state(stripe, column)
    }
}
