// Rebuilding a stripe.
ghost use Rattle.std.specs.Prelude.{◌≡◌, ◌≢◌, ◌+◌, ◌-◌, ◌*◌, ◌<◌, ◌≤◌, ℕ, true, ◌||◌, ◌&&◌, ◌==◌, length, slice_index_or, MatchResult, IfErr};
ghost use Rattle.tip_element.specs.Counts.{count_below};
ghost use Rattle.tip_code.specs.Geometry.{prime_of, cells_in};
ghost use Rattle.tip_code.specs.Stops.{First, number};
ghost use Rattle.tip_code.specs.Stripe.{stripe_of};
ghost use Rattle.tip_code.specs.declared.stop.Stop.TheVariants as stop;
ghost use Rattle.tip_columns.specs.Sets.{in_set, size};
ghost use Rattle.tip_shelf.specs.Meaning.{Meaning};
ghost use Rattle.tip_shelf.specs.Calls.{Same, is_held};
ghost use Rattle.tip_solve.specs.Solving.{work_in, room_in, Solved, WorkAfter};
ghost use Rattle.tip_array.specs.Steps.{RebuildStop, RebuildStep};
ghost use Rattle.tip_array.specs.Keeping.{OnlyRestores};
ghost use Rattle.tip_array.specs.Refilling.{FilledInBelow, SolvedThen, Remade};

use crate::array::Array;
use tip_code::geometry::Geometry;
use tip_code::stop::Stop;
use tip_columns::Columns;
use tip_element::element::Element;
use tip_element::slices::clear;
use tip_gather::columns::{columns_blank, is_blank, is_out};
use tip_gather::gather::gather;
use tip_gather::sizes::{columns_of, rows_of};
use tip_shelf::shelf::Shelf;
use tip_solve::solve::{solve_beside, work_len};

/// The cells of a column.
fn column_of<E: Element>(cells: &[E], rows: usize, column: usize) -> &[E]
    requires { column * rows + rows ≤ length cells.now }
    ensures sized { length result.now ≡ rows }
    ensures cells { (r : ℕ) → r < rows → slice_index_or result.now r E.zero ≡ slice_index_or cells.now (column * rows + r) E.zero }
{
    &cells[column * rows..column * rows + rows]
}

/// Restores each blank strip of a stripe from its column of a stripe buffer.
fn fill<S: Shelf>(shelf: &mut S, stripe: usize, cells: &[S::Element])
    requires there { stripe < (S.meaning shelf.old).stripes }
    requires sized { length cells.now ≡ cells_in (S.meaning shelf.old).prime }
    ensures filled { FilledInBelow S.Element.zero (S.meaning shelf.old) (S.meaning shelf.new) stripe ((S.meaning shelf.old).prime + 1)
        (stripe_of S.Element.zero (S.meaning shelf.old).prime cells.now) }
    ensures lent { S.lent shelf.new ≡ S.lent shelf.old }
{
    let rows = rows_of(shelf);
    for column in 0..columns_of(shelf) {
        if is_blank(shelf, stripe, column) {
            let _restored = shelf.restore(stripe, column, column_of(cells, rows, column));
        }
    }
}

/// How many columns of a set are held.
fn count_held<S: Shelf>(shelf: &mut S, stripe: usize, set: Columns) -> usize
    ensures same { Same (S.meaning shelf.old) (S.meaning shelf.new) }
    ensures value { result ≡ count_below ((S.meaning shelf.old).prime + 1)
        (λ c. in_set set c && is_held ((S.meaning shelf.old).strip stripe c)) }
    ensures lent { S.lent shelf.new ≡ S.lent shelf.old }
{
    let mut count = 0;
    for column in 0..columns_of(shelf) {
        if !is_out(shelf, stripe, column) && set.has(column) {
            count += 1;
        }
    }
    count
}

/// Solves the lost columns of a gathered stripe, and restores its blank strips. Stop 13: more than three are lost.
fn fill_solved<S: Shelf>(
    shelf: &mut S,
    stripe: usize,
    cells: &mut [S::Element],
    lost: Columns,
    room: &mut [S::Element],
    blank: Columns,
) -> Result<usize, Stop>
    requires there { stripe < (S.meaning shelf.old).stripes }
    requires sized { length cells.old ≡ cells_in (S.meaning shelf.old).prime }
    requires room { room_in (S.meaning shelf.old).prime ≤ length room.old }
    requires columns { (c : ℕ) → in_set lost c ≡ true → c ≤ (S.meaning shelf.old).prime }
    ensures done { SolvedThen S.Element.zero S.Element.join (S.meaning shelf.old) (S.meaning shelf.new)
        stripe lost blank cells.old result }
    ensures lent { S.lent shelf.new ≡ S.lent shelf.old }
{
    let geometry = shelf.geometry();
    solve_beside(geometry, cells, lost, room)?;
    fill(shelf, stripe, cells);
    Ok(count_held(shelf, stripe, blank))
}

/// Rebuilds a stripe, with what a work buffer holds first.
fn rebuild_stripe<S: Shelf>(
    shelf: &mut S,
    stripe: usize,
    work: &mut [S::Element],
) -> Result<usize, Stop>
    requires there { stripe < (S.meaning shelf.old).stripes }
    requires sized { length work.old ≡ work_in (S.meaning shelf.old).prime }
    ensures made { Remade S.Element.zero S.Element.join (S.meaning shelf.old) (S.meaning shelf.new) stripe result }
    ensures lent { S.lent shelf.new ≡ S.lent shelf.old }
{
    let blank = columns_blank(shelf, stripe);
    let (cells, room) = work.split_at_mut(shelf.geometry().cells());
    let lost = gather(shelf, stripe, cells)?;
    fill_solved(shelf, stripe, cells, lost, room, blank)
}

/// Whether the array has the stripe and the work buffer is long enough: the first of stops 9 and 10 that fits.
fn allowed<S: Shelf>(shelf: &S, stripe: usize, work: usize) -> Result<(), Stop>
    ensures { MatchResult result
        (λ _. (work_in (S.meaning shelf.now).prime ≤ work) × (stripe < (S.meaning shelf.now).stripes))
        (λ s. (number s < 13) × ((u : Meaning S.Element) → First (RebuildStop (S.meaning shelf.now) u stripe work) s)) }
{
    let geometry = shelf.geometry();
    if work < work_len(geometry) {
        return Err(Stop::Work);
    }
    if stripe >= geometry.stripes() {
        return Err(Stop::Stripe);
    }
    Ok(())
}

impl<S: Shelf> Array<S> {
    /// Restores each blank strip of a stripe, solved from the strips that are held, and answers how many strips were
    /// blank at the start and are held at the end. Accepted, it leaves no strip of the stripe blank. Where the held
    /// strips are those of an encoded stripe, the restored ones are too. No other strip changes.
    ///
    /// Stops, the first that fits. 9: the work buffer is shorter than 4(p + 1)(p + 1) elements. 10: the stripe is not
    /// below the stripe count. Then nothing changes. 13: more than three strips of the stripe are out once the held
    /// ones have been read. Then nothing is restored.
    ///
    /// Strips may drop, on a steady shelf none does. Where no stop from 9 to 10 is given, the first 4(p + 1)(p + 1)
    /// elements of the work buffer are zero afterwards. Those beyond never change.
    pub fn rebuild(&mut self, stripe: usize, work: &mut [S::Element]) -> Result<usize, Stop>
        ensures step { RebuildStep S.Element.zero S.Element.join (S.meaning self.old.shelf) (S.meaning self.new.shelf)
            stripe (length work.old) result }
        ensures keeps { OnlyRestores (S.meaning self.old.shelf) (S.meaning self.new.shelf) stripe result }
        ensures work { WorkAfter S.Element.zero (work_in (S.meaning self.old.shelf).prime) work.old work.new result }
        ensures early { IfErr result (λ s. number s < 13 → self.new.shelf ≡ self.old.shelf) }
        ensures lent { S.lent self.new.shelf ≡ S.lent self.old.shelf }
    {
        allowed(&self.shelf, stripe, work.len())?;
        let used = &mut work[..work_len(self.shelf.geometry())];
        let answer = rebuild_stripe(&mut self.shelf, stripe, used);
        clear(used);
        answer
    }
}
