// Reading a place.
ghost use Rattle.std.specs.Prelude.{◌≡◌, ◌+◌, ◌-◌, ◌*◌, ◌<◌, ◌≤◌, ℕ, true, length, slice_index_or, MatchResult, IfErr};
ghost use Rattle.tip_code.specs.Geometry.{prime_of, cells_in};
ghost use Rattle.tip_code.specs.Places.{Place};
ghost use Rattle.tip_code.specs.Stops.{First, number};
ghost use Rattle.tip_code.specs.Stripe.{data_cell, cell_index, stripe_of};
ghost use Rattle.tip_code.specs.declared.stop.Stop.TheVariants as stop;
ghost use Rattle.tip_columns.specs.Sets.{in_set, size};
ghost use Rattle.tip_shelf.specs.Meaning.{Meaning};
ghost use Rattle.tip_shelf.specs.Calls.{Fared, is_out};
ghost use Rattle.tip_solve.specs.Solving.{work_in, room_in, Solved, WorkAfter};
ghost use Rattle.tip_gather.specs.Gathering.{outs};
ghost use Rattle.tip_array.specs.Steps.{ReadStop, ReadStep};
ghost use Rattle.tip_array.specs.Keeping.{OnlyReads};
ghost use Rattle.tip_array.specs.Runs.{Passes};
ghost use Rattle.tip_array.specs.Reading.{ElementFound};

use crate::array::Array;
use tip_code::chain::Cell;
use tip_code::geometry::Geometry;
use tip_code::stop::Stop;
use tip_columns::Columns;
use tip_element::element::Element;
use tip_element::slices::clear;
use tip_gather::gather::gather;
use tip_shelf::shelf::Shelf;
use tip_solve::solve::{solve_beside, work_len};

/// The cell of a place, or the first of stops 9, 10 and 11 that fits.
pub(crate) fn admitted<S: Shelf>(
    shelf: &S,
    stripe: usize,
    place: usize,
    work: usize,
) -> Result<Cell, Stop>
    ensures { MatchResult result
        (λ c. Passes (S.meaning shelf.now) stripe place work × Place (S.meaning shelf.now).prime place c.row c.column)
        (λ s. (number s < 13) × ((u : Meaning S.Element) → First (ReadStop (S.meaning shelf.now) u stripe place work) s)) }
{
    let geometry = shelf.geometry();
    if work < work_len(geometry) {
        return Err(Stop::Work);
    }
    if stripe >= geometry.stripes() {
        return Err(Stop::Stripe);
    }
    geometry.locate(place)
}

/// The element of a cell in a stripe buffer of so many rows.
fn cell_at<E: Copy>(cells: &[E], rows: usize, cell: Cell) -> E
    requires { cell.column * rows + cell.row < length cells.now }
    ensures { (none : E) → result ≡ slice_index_or cells.now (cell.column * rows + cell.row) none }
{
    cells[cell.column * rows + cell.row]
}

/// The element of a cell in a stripe buffer whose lost columns are solved first. Stop 13: more than three are lost.
fn solved_cell<E: Element>(
    geometry: Geometry,
    cells: &mut [E],
    lost: Columns,
    room: &mut [E],
    cell: Cell,
) -> Result<E, Stop>
    requires data { data_cell (prime_of geometry) cell.row cell.column ≡ true }
    requires sized { length cells.old ≡ cells_in (prime_of geometry) }
    requires room { room_in (prime_of geometry) ≤ length room.old }
    requires columns { (c : ℕ) → in_set lost c ≡ true → c ≤ prime_of geometry }
    ensures { MatchResult result
        (λ e. (size lost ≤ 3)
        × (e ≡ slice_index_or cells.new (cell_index (prime_of geometry) cell.row cell.column) E.zero)
        × Solved E.zero E.join (prime_of geometry) (in_set lost)
        (stripe_of E.zero (prime_of geometry) cells.old) (stripe_of E.zero (prime_of geometry) cells.new))
        (λ s. (s ≡ stop.Lost) × (3 < size lost)) }
{
    solve_beside(geometry, cells, lost, room)?;
    Ok(cell_at(cells, geometry.prime().number - 1, cell))
}

/// The element of a cell whose strip is out, solved from the other strips.
/// Stop 13: more than three strips of the stripe are out.
fn solved_element<S: Shelf>(
    shelf: &mut S,
    stripe: usize,
    cell: Cell,
    work: &mut [S::Element],
) -> Result<S::Element, Stop>
    requires there { stripe < (S.meaning shelf.old).stripes }
    requires data { data_cell (S.meaning shelf.old).prime cell.row cell.column ≡ true }
    requires sized { length work.old ≡ work_in (S.meaning shelf.old).prime }
    requires out { is_out ((S.meaning shelf.old).strip stripe cell.column) ≡ true }
    ensures fared { Fared (S.meaning shelf.old) (S.meaning shelf.new) }
    ensures found { MatchResult result
        (λ e. ElementFound S.Element.zero S.Element.join (S.meaning shelf.new) stripe cell.row cell.column e)
        (λ s. (s ≡ stop.Lost) × (is_out ((S.meaning shelf.new).strip stripe cell.column) ≡ true)
        × (3 < outs (S.meaning shelf.new) stripe)) }
    ensures lent { S.lent shelf.new ≡ S.lent shelf.old }
{
    let geometry = shelf.geometry();
    let (cells, room) = work.split_at_mut(geometry.cells());
    let lost = gather(shelf, stripe, cells)?;
    solved_cell(geometry, cells, lost, room, cell)
}

/// The element of a cell: from its strip, or solved from the others if that is out.
/// Stop 13: its strip and more than three of the stripe are out at the end.
pub(crate) fn find_element<S: Shelf>(
    shelf: &mut S,
    stripe: usize,
    cell: Cell,
    work: &mut [S::Element],
) -> Result<S::Element, Stop>
    requires there { stripe < (S.meaning shelf.old).stripes }
    requires data { data_cell (S.meaning shelf.old).prime cell.row cell.column ≡ true }
    requires sized { length work.old ≡ work_in (S.meaning shelf.old).prime }
    ensures fared { Fared (S.meaning shelf.old) (S.meaning shelf.new) }
    ensures found { MatchResult result
        (λ e. ElementFound S.Element.zero S.Element.join (S.meaning shelf.new) stripe cell.row cell.column e)
        (λ s. (s ≡ stop.Lost) × (is_out ((S.meaning shelf.new).strip stripe cell.column) ≡ true)
        × (3 < outs (S.meaning shelf.new) stripe)) }
    ensures lent { S.lent shelf.new ≡ S.lent shelf.old }
{
    match shelf.get(stripe, cell.column, cell.row) {
        Ok(element) => Ok(element),
        Err(_) => solved_element(shelf, stripe, cell, work),
    }
}

impl<S: Shelf> Array<S> {
    /// Gives the element of a place: that of its cell, or solved from the other strips where the strip of the cell is
    /// out. Where the strips that are held at the end are those of an encoded stripe, that is the element of this
    /// stripe.
    ///
    /// Stops, the first that fits. 9: the work buffer is shorter than 4(p + 1)(p + 1) elements. 10: the stripe is not
    /// below the stripe count. 11: the place is not below (p - 1)(p - 2). Then nothing changes. 13: at the end the
    /// strip of the place and more than three of the stripe are out.
    ///
    /// No strip changes but by dropping, and on a steady shelf none does. Where no stop from 9 to 11 is given, the
    /// first 4(p + 1)(p + 1) elements of the work buffer are zero afterwards. Those beyond never change.
    pub fn read(
        &mut self,
        stripe: usize,
        place: usize,
        work: &mut [S::Element],
    ) -> Result<S::Element, Stop>
        ensures step { ReadStep S.Element.zero S.Element.join (S.meaning self.old.shelf) (S.meaning self.new.shelf)
            stripe place (length work.old) result }
        ensures keeps { OnlyReads (S.meaning self.old.shelf) (S.meaning self.new.shelf) }
        ensures work { WorkAfter S.Element.zero (work_in (S.meaning self.old.shelf).prime) work.old work.new result }
        ensures early { IfErr result (λ s. number s < 13 → self.new.shelf ≡ self.old.shelf) }
        ensures lent { S.lent self.new.shelf ≡ S.lent self.old.shelf }
    {
        let cell = admitted(&self.shelf, stripe, place, work.len())?;
        let used = &mut work[..work_len(self.shelf.geometry())];
        let answer = find_element(&mut self.shelf, stripe, cell, used);
        clear(used);
        answer
    }
}
