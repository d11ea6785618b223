//! The memory shelf: strips of any kind of element in buffers that a caller lends.
#![tactic(auto)]

ghost use Rattle.tip_memory.specs.Memory.{memory_of, loans};
ghost use Rattle.tip_memory.specs.Writing.{Writes};
ghost use Rattle.tip_memory.specs.Laws.{memory_sound, memory_devices};

use tip_code::geometry::Geometry;
use tip_code::stop::Stop;
use tip_element::element::Element;
use tip_shelf::shelf::{Out, Serviced, Shelf, State};
use tip_store::layout::{Layout, Spot};
use tip_store::paste::paste;
use tip_store::status::{Event, advance, state_at};

/// A steady shelf in two lent buffers: an element for each cell, stripe by stripe, each as a stripe buffer; and in the same order a
/// status byte for each strip, 0 for absent, 1 for blank, 2 for held, and any other for absent. Device c carries column c.
/// Over buffers of other lengths all strips are absent, and nothing is ever written.
#[derive(Drop)]
pub struct MemoryShelf<'a, E> {
    pub geometry: &'a Geometry,
    pub cells: &'a mut [E],
    pub statuses: &'a mut [u8],
}

impl<'a, E: Element> MemoryShelf<'a, E> {
    ghost use Rattle.std.specs.Prelude.{◌≡◌, length, IfOk};
    ghost use Rattle.tip_code.specs.Geometry.{prime_of, stripes_of};
    ghost use Rattle.tip_code.specs.Stops.{Stopped};
    ghost use Rattle.tip_memory.specs.Memory.{LengthStop, Over};

    /// The shelf over buffers of any length. Whatever they hold means something: see the type.
    pub fn over(
        geometry: &'a Geometry,
        cells: &'a mut [E],
        statuses: &'a mut [u8],
    ) -> MemoryShelf<'a, E>
        ensures { Over geometry.now cells.entry statuses.entry result }
    {
        MemoryShelf {
            geometry,
            cells,
            statuses,
        }
    }

    /// The shelf over buffers that fit: (p - 1)(p + 1) cells for each stripe, and p + 1 status bytes. They stay as they are.
    /// Stop 3: one of them has another length.
    pub fn new(
        geometry: &'a Geometry,
        cells: &'a mut [E],
        statuses: &'a mut [u8],
    ) -> Result<MemoryShelf<'a, E>, Stop>
        ensures stop { Stopped (LengthStop (prime_of geometry.now) (stripes_of geometry.now) (length cells.old) (length statuses.old)) result }
        ensures value { IfOk result (Over geometry.now cells.entry statuses.entry) }
    {
        let shelf = MemoryShelf::over(geometry, cells, statuses);
        if shelf.fits() {
            Ok(shelf)
        } else {
            Err(Stop::Length)
        }
    }
}

impl<'a, E: Element> Shelf for MemoryShelf<'a, E> {
    type Element = E;

    ghost meaning = { memory_of E.zero };

    ghost lent = { loans };

    ghost performs = { Writes E.zero };

    fn geometry(&self) -> Geometry {
        *self.geometry
    }

    fn is_steady(&self) -> bool {
        true
    }

    fn state(&mut self, stripe: usize, column: usize) -> State {
        match self.spot(stripe, column) {
            Some(spot) => self.state_of(spot),
            None => State::Absent,
        }
    }

    #[tactic(auto, using(crate::proofs::Calling::memory_got))]
    fn get(&mut self, stripe: usize, column: usize, row: usize) -> Result<E, Out> {
        let Some(index) = self.held_cell(stripe, column, row) else {
            return Err(Out);
        };
        Ok(self.cells[index])
    }

    fn put(&mut self, stripe: usize, column: usize, row: usize, element: E) -> Result<(), Out> {
        let Some(index) = self.held_cell(stripe, column, row) else {
            return Err(Out);
        };
        self.cells[index] = element;
        Ok(())
    }

    fn erase(&mut self, stripe: usize, column: usize) -> Result<(), Out> {
        let Some(spot) = self.spot(stripe, column) else {
            return Err(Out);
        };
        if self.state_of(spot) == State::Absent {
            return Err(Out);
        }
        advance(self.statuses, spot.status, Event::Erase);
        Ok(())
    }

    fn restore(&mut self, stripe: usize, column: usize, elements: &[E]) -> Result<(), Out> {
        let Some(spot) = self.spot(stripe, column) else {
            return Err(Out);
        };
        let rows = self.rows();
        if elements.len() != rows || self.state_of(spot) != State::Blank {
            return Err(Out);
        }
        paste(self.cells, spot.number * rows, elements);
        advance(self.statuses, spot.status, Event::Restore);
        Ok(())
    }

    ghost sound = { memory_sound E.zero };
}

impl<'a, E: Element> Serviced for MemoryShelf<'a, E> {
    fn pull(&mut self, device: usize) {
        self.sweep(device, Event::Pull);
    }

    fn fit(&mut self, device: usize) -> bool {
        self.sweep(device, Event::Fit)
    }

    ghost devices = { memory_devices E.zero };
}

impl<E: Element> MemoryShelf<'_, E> {
    ghost use Rattle.std.specs.Prelude.{◌≡◌, ◌-◌, ◌&&◌, nat_le, true, MatchOption, slice_index_or};
    ghost use Rattle.tip_code.specs.Geometry.{prime_of, stripes_of};
    ghost use Rattle.tip_memory.specs.Memory.{fits_of, loans, CellAt, NoCell};
    ghost use Rattle.tip_memory.specs.Writing.{Serves};
    ghost use Rattle.tip_store.specs.Layout.{HasStrip, Spotted};
    ghost use Rattle.tip_store.specs.Status.{state_for};

    /// How the status bytes stand.
    fn layout(&self) -> Layout
        ensures { (result.geometry ≡ self.now.geometry.now) × (result.width ≡ 1) }
    {
        Layout::of_statuses(*self.geometry)
    }

    /// How many rows a strip has.
    fn rows(&self) -> usize
        ensures { result ≡ prime_of self.now.geometry.now - 1 }
    {
        self.geometry.prime().number - 1
    }

    /// Whether the buffers have the lengths of the array.
    fn fits(&self) -> bool
        ensures { result ≡ fits_of self.now }
    {
        let layout = self.layout();
        self.cells.len() == layout.strips() * self.rows() && self.statuses.len() == layout.bytes()
    }

    /// Whether there are strips on the device.
    fn serves(&self, device: usize) -> bool
        ensures { result ≡ (fits_of self.now && nat_le device (prime_of self.now.geometry.now)) }
    {
        self.fits() && device <= self.geometry.prime().number
    }

    /// Changes the status bytes of the strips on the device by an event, and says whether there are any.
    fn sweep(&mut self, device: usize, event: Event) -> bool
        ensures swept { Serves self.old self.new device event }
        ensures geometry { self.new.geometry.now ≡ self.old.geometry.now }
        ensures lent { loans self.new ≡ loans self.old }
        ensures answer { result ≡ (fits_of self.old && nat_le device (prime_of self.old.geometry.now)) }
    {
        if !self.serves(device) {
            return false;
        }
        self.layout().sweep(device, event, self.statuses);
        true
    }

    /// Where a strip stands, or nothing where there is none.
    fn spot(&self, stripe: usize, column: usize) -> Option<Spot>
        ensures { MatchOption result (fits_of self.now ≡ true → HasStrip (prime_of self.now.geometry.now) (stripes_of self.now.geometry.now) stripe column → ⊥) (λ s. (fits_of self.now ≡ true) × Spotted (prime_of self.now.geometry.now) (stripes_of self.now.geometry.now) 1 stripe column s) }
    {
        if self.fits() {
            self.layout().spot(stripe, column)
        } else {
            None
        }
    }

    /// What the status byte at a spot says.
    fn state_of(&self, spot: Spot) -> State
        ensures { result ≡ state_for (slice_index_or self.now.statuses.now spot.status 0) }
    {
        state_at(self.statuses, spot.status)
    }

    /// Where the element of a held strip stands, or nothing where the strip is out or there is no such row.
    fn held_cell(&self, stripe: usize, column: usize, row: usize) -> Option<usize>
        ensures { MatchOption result (NoCell self.now stripe column row) (CellAt self.now stripe column row) }
    {
        let spot = self.spot(stripe, column)?;
        let rows = self.rows();
        if row >= rows || self.state_of(spot) != State::Held {
            return None;
        }
        Some(spot.number * rows + row)
    }
}
