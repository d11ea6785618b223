// Placing the elements of a stripe, as straight code: the prime and each column stand in the code as numbers, so the
// compiler knows which cells hold data and where they stand, and what is left is a load and a store for each.
ghost use Rattle.std.specs.Prelude.{◌≡◌, ℕ, ◌+◌, ◌-◌, ◌<◌, ◌≤◌, true, min, length, slice_index_or};
ghost use Rattle.tip_code.specs.Geometry.{cells_in, places_in};
ghost use Rattle.tip_code.specs.Places.{Place, place_number};
ghost use Rattle.tip_code.specs.Primes.{listed};
ghost use Rattle.tip_code.specs.Joining.{Placed, PlacesColumn};
ghost use Rattle.tip_code.specs.Stripe.{stripe_of, cell_index, data_cell};

use super::chain::{Cell, index_of, is_data};
use super::prime::Prime;
use tip_element::element::Element;

/// The number that a column has once those of two others that are below it are left out.
#[inline(always)]
fn without(column: usize, first: usize, second: usize) -> usize
    requires { (0 < first) × (first < second) }
    ensures both { second < column → result ≡ column - 2 }
    ensures one { first < column → column ≤ second → result ≡ column - 1 }
    ensures none { column ≤ first → column ≤ second → result ≡ column }
    ensures within { result ≤ column }
{
    if second < column {
        column - 2
    } else if first < column {
        column - 1
    } else {
        column
    }
}

/// The place of a data cell: the two parity cells of its row are left out.
#[tactic(auto, using(crate::proofs::Cells::data_facts))]
#[inline(always)]
fn place_of(prime: Prime, cell: Cell) -> usize
    requires { data_cell prime.number cell.row cell.column ≡ true }
    ensures value { result ≡ place_number prime.number cell.row cell.column }
    ensures within { result < places_in prime.number }
{
    let p = prime.number;
    let Cell { row, column } = cell;
    let first = (row + 1).min(p - 1 - row);
    let second = (row + 1).max(p - 1 - row);
    row * (p - 2) + without(column, first, second)
}

/// Puts the element of its place into a cell, where that holds data.
#[tactic(auto, using(crate::proofs::Cells::data_facts))]
#[inline(always)]
fn fill_cell<E: Element>(prime: Prime, cell: Cell, values: &[E], cells: &mut [E])
    requires cell { (cell.row < prime.number - 1) × (cell.column < prime.number) }
    requires full { length values.now ≡ places_in prime.number }
    requires sized { length cells.old ≡ cells_in prime.number }
    ensures { Placed prime.number (λ n. slice_index_or values.now n E.zero)
        (cell_index prime.number cell.row cell.column) (stripe_of E.zero prime.number cells.old)
        → Placed prime.number (λ n. slice_index_or values.now n E.zero)
        (cell_index prime.number (cell.row + 1) cell.column) (stripe_of E.zero prime.number cells.new) }
{
    if is_data(prime, cell) {
        cells[index_of(prime, cell)] = values[place_of(prime, cell)];
    }
}

/// Puts the elements of the places in the next eight rows of a column into their cells.
#[inline(always)]
fn fill_eight<E: Element>(prime: Prime, column: usize, from: usize, values: &[E], cells: &mut [E])
    requires column { column < prime.number }
    requires full { length values.now ≡ places_in prime.number }
    requires sized { length cells.old ≡ cells_in prime.number }
    requires from { from < 32 }
    ensures { Placed prime.number (λ n. slice_index_or values.now n E.zero)
        (cell_index prime.number (min from (prime.number - 1)) column) (stripe_of E.zero prime.number cells.old)
        → Placed prime.number (λ n. slice_index_or values.now n E.zero)
        (cell_index prime.number (min (from + 8) (prime.number - 1)) column)
        (stripe_of E.zero prime.number cells.new) }
{
    let rows = prime.number - 1;
    for row in from.min(rows)..(from + 8).min(rows) {
        fill_cell(prime, Cell { row, column }, values, cells);
    }
}

/// Fills the data cells of a column, where the stripe has that column.
#[inline(always)]
fn fill_column<const P: usize, const COLUMN: usize, E: Element>(values: &[E], cells: &mut [E])
    requires prime { listed P ≡ true }
    requires full { length values.now ≡ places_in P }
    requires sized { length cells.old ≡ cells_in P }
    ensures { PlacesColumn P (λ n. slice_index_or values.now n E.zero) COLUMN
        (stripe_of E.zero P cells.old) (stripe_of E.zero P cells.new) }
{
    let prime = Prime::known::<P>();
    if COLUMN < P {
        fill_eight(prime, COLUMN, 0, values, cells);
        fill_eight(prime, COLUMN, 8, values, cells);
        fill_eight(prime, COLUMN, 16, values, cells);
        fill_eight(prime, COLUMN, 24, values, cells);
    }
}

macro_rules! fill_columns {
    ($p:ident, $e:ident, $values:ident, $cells:ident, $($column:literal)*) => {
        $( fill_column::<$p, $column, $e>($values, $cells); )*
    };
}

/// Puts each element into the cell of its place. Column by column, so that the stores run on.
#[inline(always)]
pub(crate) fn fill_all<const P: usize, E: Element>(values: &[E], cells: &mut [E])
    requires prime { listed P ≡ true }
    requires full { length values.now ≡ places_in P }
    requires sized { length cells.old ≡ cells_in P }
    ensures { (n r c : ℕ) → Place P n r c
        → stripe_of E.zero P cells.new r c ≡ slice_index_or values.now n E.zero }
{
    fill_columns!(P, E, values, cells, 0 1 2 3 4 5 6 7 8 9 10 11 12 13 14 15 16 17 18 19 20 21 22 23 24 25 26 27 28 29
        30);
}
