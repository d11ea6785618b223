// The columns of a stripe buffer, which stand in it one after another.
ghost use Rattle.std.specs.Prelude.{◌≡◌, ℕ, ◌+◌, ◌-◌, ◌*◌, ◌<◌, ◌≤◌, length, slice_index_or};
ghost use Rattle.tip_code.specs.Buffer.{cells_of, SameBuffer};
ghost use Rattle.tip_code.specs.Encoding.{chain_join};
ghost use Rattle.tip_code.specs.Geometry.{cells_in};
ghost use Rattle.tip_code.specs.Stripe.{stripe_of};
ghost use Rattle.tip_code.specs.declared.chain.Direction.TheVariants.{Antidiagonal};
ghost use Rattle.tip_algebra.specs.Cyclic.{Holds};
ghost use Rattle.tip_algebra.specs.Unfolded.{unfolded};
ghost use Rattle.tip_solve.specs.Writing.{Elsewhere, CellElsewhere, UpToAntidiagonal};

use tip_code::chain::{Chain, Direction};
use tip_code::prime::Prime;
use tip_code::stripe::Stripe;
use tip_element::element::Element;
use tip_element::slices::clear;

/// Where a column begins.
fn column_start(prime: Prime, column: usize) -> usize
    requires { column ≤ prime.number }
    ensures value { result ≡ column * (prime.number - 1) }
    ensures within { result + (prime.number - 1) ≤ cells_in prime.number }
{
    column * (prime.number - 1)
}

/// Sets a column to zero.
pub(crate) fn clear_column<E: Element>(prime: Prime, column: usize, cells: &mut [E])
    requires { (column ≤ prime.number) × (length cells.old ≡ cells_in prime.number) }
    ensures elsewhere { Elsewhere prime.number column (stripe_of E.zero prime.number cells.old)
        (stripe_of E.zero prime.number cells.new) }
    ensures here { (r : ℕ) → r < prime.number - 1 → stripe_of E.zero prime.number cells.new r column ≡ E.zero }
{
    let rows = prime.number - 1;
    let start = column_start(prime, column);
    clear(&mut cells[start..start + rows]);
}

/// Copies the first p - 1 elements of a run into a column.
pub(crate) fn write_column<E: Element>(prime: Prime, column: usize, run: &[E], cells: &mut [E])
    requires { (column ≤ prime.number) × (length cells.old ≡ cells_in prime.number)
        × (prime.number - 1 ≤ length run.now) }
    ensures elsewhere { Elsewhere prime.number column (stripe_of E.zero prime.number cells.old)
        (stripe_of E.zero prime.number cells.new) }
    ensures here { (r : ℕ) → r < prime.number - 1
        → stripe_of E.zero prime.number cells.new r column ≡ slice_index_or run.now r E.zero }
{
    let rows = prime.number - 1;
    let start = column_start(prime, column);
    cells[start..start + rows].copy_from_slice(&run[..rows]);
}

/// Sets a cell of a column.
fn write_cell<E: Element>(prime: Prime, row: usize, column: usize, element: E, cells: &mut [E])
    requires { (row < prime.number - 1) × (column ≤ prime.number) × (length cells.old ≡ cells_in prime.number) }
    ensures elsewhere { CellElsewhere prime.number row column (stripe_of E.zero prime.number cells.old)
        (stripe_of E.zero prime.number cells.new) }
    ensures here { stripe_of E.zero prime.number cells.new row column ≡ element }
{
    cells[column_start(prime, column) + row] = element;
}

/// Writes an unfolded column, with zero for its antidiagonal parity.
pub(crate) fn write_unfolded<E: Element>(prime: Prime, column: usize, run: &[E], cells: &mut [E])
    requires { (column < prime.number) × (length cells.old ≡ cells_in prime.number) × (prime.number ≤ length run.now) }
    ensures elsewhere { Elsewhere prime.number column (stripe_of E.zero prime.number cells.old)
        (stripe_of E.zero prime.number cells.new) }
    ensures here { (W : ℕ → ℕ → E) → Holds E.zero prime.number run.now (unfolded E.zero prime.number W column)
        → UpToAntidiagonal E.zero prime.number column W (stripe_of E.zero prime.number cells.new) }
{
    write_column(prime, column, run, cells);
    if column > 0 {
        write_cell(prime, column - 1, column, run[prime.number - 1], cells);
    }
}

/// Sets the antidiagonal parity that stands in a column, which holds zero, to what its line joins to. Column 0 has
/// none.
pub(crate) fn set_antidiagonal<E: Element>(column: usize, stripe: &mut Stripe<'_, E>)
    requires { column < stripe.old.prime.number }
    ensures same { SameBuffer stripe.old stripe.new }
    ensures elsewhere { CellElsewhere stripe.old.prime.number (stripe.old.prime.number - 1 - column) column
        (cells_of E.zero stripe.old) (stripe_of E.zero stripe.old.prime.number stripe.new.cells.now) }
    ensures here { 0 < column
        → stripe_of E.zero stripe.old.prime.number stripe.new.cells.now (stripe.old.prime.number - 1 - column) column
        ≡ chain_join E.zero E.join stripe.old.prime.number (cells_of E.zero stripe.old) Antidiagonal
        (stripe.old.prime.number - 1 - column) }
{
    let line = stripe.prime.number - 1 - column;
    let direction = Direction::Antidiagonal;
    if let Some(parity) = stripe.chain_join(Chain { direction, line }) {
        write_cell(stripe.prime, line, column, parity, stripe.cells);
    }
}
