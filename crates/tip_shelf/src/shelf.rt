// The contract between the engine and a store of columns.
ghost use Rattle.std.specs.Prelude.{◌≡◌, List};
ghost use Rattle.std.specs.Borrow.{GName};
ghost use Rattle.tip_shelf.specs.Meaning.{Meaning, Sound, Devices};
ghost use Rattle.tip_shelf.specs.Calls.{Shaped, Told, Got, Put, Erased, Restored};
ghost use Rattle.tip_shelf.specs.Service.{Pulled, Fitted};
ghost use Rattle.tip_shelf.specs.Performing.{ShelfCall, state_call, get_call, put_call, erase_call, restore_call, pull_call, fit_call};

use tip_code::geometry::Geometry;
use tip_element::element::Element;

/// A strip is the column of one stripe. Blank and absent strips are out: they have no elements.
#[derive(Clone, Copy, PartialEq, Eq, Debug)]
pub enum State {
    /// The strip has an element for each row.
    Held,
    /// The strip has no elements, and can be restored.
    Blank,
    /// The strip is lost, until its device is fitted.
    Absent,
}

/// The answer that a strip is out.
#[derive(Clone, Copy, PartialEq, Eq, Debug)]
pub struct Out;

/// A store of columns, in stripes. What it means, by its ghost members, is told in `specs/Meaning.antt`, and what each call does to that in
/// `specs/Calls.antt`. Between calls nothing changes its meaning: what fails meanwhile turns absent in a later call.
pub trait Shelf {
    /// The one kind of element that it holds.
    type Element: Element;

    /// The strips and the devices that carry them.
    ghost meaning: { Self → Meaning Self.Element };

    /// The memory that the shelf was lent, by the names of the loans; none where it owns all that it has. No call swaps it, so whoever
    /// lent a buffer knows afterwards that the buffer holds what the shelf left in it.
    ghost lent: { Self → List GName };

    /// What a call of this shelf does to the shelf, before and after. Code for every shelf knows it of a call by making
    /// that call, and by nothing else. So whoever promises it has made the call, also one that changes nothing.
    ghost performs: { Self → ShelfCall Self.Element → Self → Type 0 };

    /// The prime and the number of stripes.
    fn geometry(&self) -> Geometry
        ensures { Shaped (meaning self.now) result };

    /// Whether the shelf is steady: no strip is lost but by a pull.
    fn is_steady(&self) -> bool
        ensures { result ≡ (meaning self.now).steady };

    /// Tells which of the three a strip is, absent beyond the last stripe or column, and alters nothing.
    fn state(&mut self, stripe: usize, column: usize) -> State
        ensures act { Told (meaning self.old) (meaning self.new) stripe column result }
        ensures lent { lent self.new ≡ lent self.old }
        ensures performs { performs self.old (state_call stripe column result) self.new };

    /// Gives the element at a row of a held strip.
    fn get(&mut self, stripe: usize, column: usize, row: usize) -> Result<Self::Element, Out>
        ensures act { Got (meaning self.old) (meaning self.new) stripe column row result }
        ensures lent { lent self.new ≡ lent self.old }
        ensures performs { performs self.old (get_call stripe column row result) self.new };

    /// Sets one element of a held strip and no other.
    fn put(
        &mut self,
        stripe: usize,
        column: usize,
        row: usize,
        element: Self::Element,
    ) -> Result<(), Out>
        ensures act { Put (meaning self.old) (meaning self.new) stripe column row element result }
        ensures lent { lent self.new ≡ lent self.old }
        ensures performs { performs self.old (put_call stripe column row element result) self.new };

    /// Makes a held or blank strip blank.
    fn erase(&mut self, stripe: usize, column: usize) -> Result<(), Out>
        ensures act { Erased (meaning self.old) (meaning self.new) stripe column result }
        ensures lent { lent self.new ≡ lent self.old }
        ensures performs { performs self.old (erase_call stripe column result) self.new };

    /// Makes a blank strip held, with exactly these elements, one for each row.
    fn restore(
        &mut self,
        stripe: usize,
        column: usize,
        elements: &[Self::Element],
    ) -> Result<(), Out>
        ensures act { Restored (meaning self.old) (meaning self.new) stripe column elements.now result }
        ensures lent { lent self.new ≡ lent self.old }
        ensures performs { performs self.old (restore_call stripe column elements.now result) self.new };

    /// What is true of every shelf.
    ghost sound: { (s : Self) → Sound (meaning s) };
}

/// A shelf with devices 0 to p that can be pulled and fitted. What that does to its meaning is told in `specs/Service.antt`.
pub trait Serviced: Shelf {
    /// Makes every strip of the device absent.
    fn pull(&mut self, device: usize)
        ensures act { Pulled (Self.meaning self.old) (Self.meaning self.new) device }
        ensures lent { Self.lent self.new ≡ Self.lent self.old }
        ensures performs { Self.performs self.old (pull_call device) self.new };

    /// Says yes, and makes each absent strip of the device blank; or says no.
    fn fit(&mut self, device: usize) -> bool
        ensures act { Fitted (Self.meaning self.old) (Self.meaning self.new) device result }
        ensures lent { Self.lent self.new ≡ Self.lent self.old }
        ensures performs { Self.performs self.old (fit_call device result) self.new };

    /// Its devices are those from 0 to p.
    ghost devices: { (s : Self) → Devices (Self.Shelf.meaning s) };
}
