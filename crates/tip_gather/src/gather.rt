// Gathering: the held strips of a stripe, read into one buffer.
ghost use Rattle.std.specs.Prelude.{◌≡◌, ℕ, ◌+◌, ◌-◌, ◌*◌, ◌<◌, ◌≤◌, true, length, slice_set, MatchResult};
ghost use Rattle.tip_code.specs.Geometry.{cells_in};
ghost use Rattle.tip_code.specs.Stops.{Stopped};
ghost use Rattle.tip_shelf.specs.Meaning.{Within};
ghost use Rattle.tip_shelf.specs.Calls.{Same};
ghost use Rattle.tip_shelf.specs.Performing.{Performed, AtMost};
ghost use Rattle.tip_gather.specs.Gathering.{GatherStop, StripRead, StripsRead, Gathered};
ghost use Rattle.tip_gather.specs.Looking.{AsksOrGets};

use super::columns::{columns_out, is_out};
use super::sizes::{columns_of, rows_of};
use tip_code::stop::Stop;
use tip_columns::Columns;
use tip_element::element::Element;
use tip_shelf::shelf::Shelf;

/// Sets the cell of a column and row, in a stripe buffer of so many rows.
fn set_cell<E: Element>(cells: &mut [E], rows: usize, column: usize, row: usize, element: E)
    requires { column * rows + row < length cells.old }
    ensures { cells.new ≡ slice_set cells.old (column * rows + row) element }
{
    cells[column * rows + row] = element;
}

/// Copies a strip into its column of the stripe buffer, row by row, as long as it is held.
#[tactic(auto, using(crate::proofs::Reading::rows_none, tip_shelf::proofs::Series::at_most_none))]
fn read_strip<S: Shelf>(shelf: &mut S, stripe: usize, column: usize, cells: &mut [S::Element])
    requires there { Within (S.meaning shelf.old) stripe column }
    requires sized { length cells.old ≡ cells_in (S.meaning shelf.old).prime }
    ensures read { StripRead S.Element.zero (S.meaning shelf.old) (S.meaning shelf.new) stripe column ((S.meaning shelf.old).prime - 1) cells.old cells.new }
    ensures lent { S.lent shelf.new ≡ S.lent shelf.old }
    ensures calls { let p = (S.meaning shelf.old).prime in
        AtMost (p - 1) (AsksOrGets stripe) (Performed S.meaning S.performs) shelf.old shelf.new }
{
    let rows = rows_of(shelf);
    for row in 0..rows {
        let Ok(element) = shelf.get(stripe, column, row) else {
            return;
        };
        set_cell(cells, rows, column, row, element);
    }
}

/// Copies each held strip of a stripe into the stripe buffer. One that was copied may be out afterwards.
#[tactic(auto, using(crate::proofs::Reading::columns_none, tip_shelf::proofs::Series::at_most_none))]
fn read_held<S: Shelf>(shelf: &mut S, stripe: usize, cells: &mut [S::Element])
    requires there { stripe < (S.meaning shelf.old).stripes }
    requires sized { length cells.old ≡ cells_in (S.meaning shelf.old).prime }
    ensures read { StripsRead S.Element.zero (S.meaning shelf.old) (S.meaning shelf.new) stripe ((S.meaning shelf.old).prime + 1) cells.new }
    ensures lent { S.lent shelf.new ≡ S.lent shelf.old }
    ensures calls { let p = (S.meaning shelf.old).prime in
        AtMost ((p + 1) * p) (AsksOrGets stripe) (Performed S.meaning S.performs) shelf.old shelf.new }
{
    for column in 0..columns_of(shelf) {
        if !is_out(shelf, stripe, column) {
            read_strip(shelf, stripe, column, cells);
        }
    }
}

/// Reads the held strips of a stripe into a stripe buffer of (p - 1)(p + 1) elements, and gives the columns that are
/// out at the end: a strip may drop while others are read, also one that was read already. Every strip that is held at
/// the end was read whole; the cells of the other columns may hold anything. A steady shelf is unchanged. The shelf is
/// asked for states and elements of this stripe alone, by at most (p + 1)(p + 1) calls.
/// Stop 3: the buffer has another length. Stop 10: the stripe is not below the number of stripes. At a stop nothing
/// changes.
#[tactic(auto, using(crate::proofs::Stopping::no_stop, crate::proofs::Reading::all_gathered, tip_shelf::proofs::Faring::fared_steady, tip_shelf::proofs::Series::at_most_none))]
pub fn gather<S: Shelf>(
    shelf: &mut S,
    stripe: usize,
    cells: &mut [S::Element],
) -> Result<Columns, Stop>
    ensures stop { Stopped (GatherStop (S.meaning shelf.old) (length cells.old) stripe) result }
    ensures steady { (S.meaning shelf.old).steady ≡ true → Same (S.meaning shelf.old) (S.meaning shelf.new) }
    ensures gathered { MatchResult result (λ out. Gathered S.Element.zero (S.meaning shelf.old) (S.meaning shelf.new) stripe out cells.new) (λ _. (shelf.new ≡ shelf.old) × (cells.new ≡ cells.old)) }
    ensures lent { S.lent shelf.new ≡ S.lent shelf.old }
    ensures calls { let p = (S.meaning shelf.old).prime in
        AtMost ((p + 1) * (p + 1)) (AsksOrGets stripe) (Performed S.meaning S.performs) shelf.old shelf.new }
{
    let geometry = shelf.geometry();
    if cells.len() != geometry.cells() {
        return Err(Stop::Length);
    }
    if stripe >= geometry.stripes() {
        return Err(Stop::Stripe);
    }
    read_held(shelf, stripe, cells);
    // What is out is asked last, since reading may have lost strips.
    Ok(columns_out(shelf, stripe))
}
