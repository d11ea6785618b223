// Writing a place.
ghost use Rattle.std.specs.Prelude.{◌≡◌, ◌<◌, true, ◌&&◌, ◌==◌, length, IfErr};
ghost use Rattle.tip_code.specs.Stripe.{data_cell};
ghost use Rattle.tip_shelf.specs.Calls.{InRange};
ghost use Rattle.tip_solve.specs.Solving.{work_in, WorkAfter};
ghost use Rattle.tip_array.specs.Stripes.{concerned};
ghost use Rattle.tip_code.specs.Stops.{number};
ghost use Rattle.tip_array.specs.Steps.{Updated, WriteStep};
ghost use Rattle.tip_array.specs.Keeping.{OnlyPuts};
ghost use Rattle.tip_array.specs.Reading.{CellHolds, Wrote};

use crate::array::Array;
use crate::read::{admitted, find_element};
use tip_code::chain::Cell;
use tip_code::stop::Stop;
use tip_element::element::Element;
use tip_element::slices::clear;
use tip_gather::columns::count_out;
use tip_shelf::shelf::{Out, Shelf};
use tip_solve::solve::work_len;

/// Sets a cell, where its strip is held. That joins the difference to the old element into it, whatever that was.
fn put_cell<S: Shelf>(
    shelf: &mut S,
    stripe: usize,
    cell: Cell,
    element: S::Element,
) -> Result<(), Out>
    requires { InRange (S.meaning shelf.old) stripe cell.column cell.row }
    ensures updated { (old : S.Element) → CellHolds S.Element.zero (S.meaning shelf.old) stripe cell.row cell.column old
        → Updated S.Element.zero S.Element.join (S.meaning shelf.old) (S.meaning shelf.new) stripe
        (λ s k. s == cell.row && k == cell.column) (S.Element.join old element) }
    ensures lent { S.lent shelf.new ≡ S.lent shelf.old }
{
    shelf.put(stripe, cell.column, cell.row, element)
}

/// Joins a change into a cell, where its strip is held.
fn join_into<S: Shelf>(shelf: &mut S, stripe: usize, cell: Cell, change: S::Element)
    requires { InRange (S.meaning shelf.old) stripe cell.column cell.row }
    ensures updated { Updated S.Element.zero S.Element.join (S.meaning shelf.old) (S.meaning shelf.new) stripe
        (λ s k. s == cell.row && k == cell.column) change }
    ensures lent { S.lent shelf.new ≡ S.lent shelf.old }
{
    if let Ok(old) = shelf.get(stripe, cell.column, cell.row) {
        let _put = shelf.put(stripe, cell.column, cell.row, old.join(change));
    }
}

/// Sets a data cell that holds an old element, where its strip is held, and joins the difference into its three parity
/// cells.
fn update<S: Shelf>(shelf: &mut S, stripe: usize, cell: Cell, old: S::Element, element: S::Element)
    requires there { stripe < (S.meaning shelf.old).stripes }
    requires data { data_cell (S.meaning shelf.old).prime cell.row cell.column ≡ true }
    requires old { CellHolds S.Element.zero (S.meaning shelf.old) stripe cell.row cell.column old }
    ensures updated { Updated S.Element.zero S.Element.join (S.meaning shelf.old) (S.meaning shelf.new) stripe
        (concerned (S.meaning shelf.old).prime cell.row cell.column) (S.Element.join old element) }
    ensures lent { S.lent shelf.new ≡ S.lent shelf.old }
{
    let Some(parities) = shelf.geometry().parities(cell) else {
        return;
    };
    let change = old.join(element);
    let _put = put_cell(shelf, stripe, cell, element);
    join_into(shelf, stripe, parities.row, change);
    join_into(shelf, stripe, parities.diagonal, change);
    join_into(shelf, stripe, parities.antidiagonal, change);
}

/// Writes a cell, with what a work buffer holds first.
fn write_cell<S: Shelf>(
    shelf: &mut S,
    stripe: usize,
    cell: Cell,
    element: S::Element,
    work: &mut [S::Element],
) -> Result<usize, Stop>
    requires there { stripe < (S.meaning shelf.old).stripes }
    requires data { data_cell (S.meaning shelf.old).prime cell.row cell.column ≡ true }
    requires sized { length work.old ≡ work_in (S.meaning shelf.old).prime }
    ensures put { Wrote S.Element.zero S.Element.join (S.meaning shelf.old) (S.meaning shelf.new)
        stripe cell.row cell.column element result }
    ensures lent { S.lent shelf.new ≡ S.lent shelf.old }
{
    let old = find_element(shelf, stripe, cell, work)?;
    update(shelf, stripe, cell, old, element);
    Ok(count_out(shelf, stripe))
}

impl<S: Shelf> Array<S> {
    /// Sets the element of a place, and answers how many strips of the stripe are out at the end. The old element is
    /// found as `read` finds it; then the difference of old and new is joined into the cell of the place and into its
    /// three parity cells. Each of the four that is out is passed by: where at most three strips of the stripe are
    /// out, the others decide what it would hold. No other cell changes.
    ///
    /// Stops, the first that fits. 9: the work buffer is shorter than 4(p + 1)(p + 1) elements. 10: the stripe is not
    /// below the stripe count. 11: the place is not below (p - 1)(p - 2). Then nothing changes. 13: the old element
    /// cannot be found, since the strip of the place and more than three of the stripe are out. Then nothing was put.
    ///
    /// Strips may drop, on a steady shelf none does. Where no stop from 9 to 11 is given, the first 4(p + 1)(p + 1)
    /// elements of the work buffer are zero afterwards. Those beyond never change.
    pub fn write(
        &mut self,
        stripe: usize,
        place: usize,
        element: S::Element,
        work: &mut [S::Element],
    ) -> Result<usize, Stop>
        ensures step { WriteStep S.Element.zero S.Element.join (S.meaning self.old.shelf) (S.meaning self.new.shelf)
            stripe place element (length work.old) result }
        ensures keeps { OnlyPuts (S.meaning self.old.shelf) (S.meaning self.new.shelf) }
        ensures work { WorkAfter S.Element.zero (work_in (S.meaning self.old.shelf).prime) work.old work.new result }
        ensures early { IfErr result (λ s. number s < 13 → self.new.shelf ≡ self.old.shelf) }
        ensures lent { S.lent self.new.shelf ≡ S.lent self.old.shelf }
    {
        let cell = admitted(&self.shelf, stripe, place, work.len())?;
        let used = &mut work[..work_len(self.shelf.geometry())];
        let answer = write_cell(&mut self.shelf, stripe, cell, element, used);
        clear(used);
        answer
    }
}
