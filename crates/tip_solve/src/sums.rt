// What the chains of a stripe without its unknown columns join to, which is what the unknown cells on them do.
ghost use Rattle.std.specs.Prelude.{◌≡◌, ℕ, ◌+◌, ◌-◌, ◌<◌, ◌≤◌, length, if◌then◌else◌, nat_eq, slice_index_or};
ghost use Rattle.tip_code.specs.Buffer.{cells_of};
ghost use Rattle.tip_code.specs.declared.chain.Direction.TheVariants.{Diagonal, Antidiagonal};
ghost use Rattle.tip_algebra.specs.Cyclic.{Holds, Mirrored, Twice};
ghost use Rattle.tip_algebra.specs.Known.{ChainJoins};
ghost use Rattle.tip_algebra.specs.Unfolded.{unfolded, excess};
ghost use Rattle.tip_solve.specs.Summing.{all_of, RowChains};

use super::runs::{join_first, repeat};
use tip_code::chain::Direction;
use tip_code::prime::Prime;
use tip_code::stripe::Stripe;
use tip_element::element::Element;

/// Joins along rows, diagonals and antidiagonals: three lent runs of two turns. That p is the one of the stripe is
/// said in clauses: a struct of stripe and sums would have each step promise of both that they are as before.
#[derive(Drop)]
pub(crate) struct Sums<'a, E> {
    pub prime: Prime,
    pub rows: &'a mut [E],
    pub diagonals: &'a mut [E],
    pub antidiagonals: &'a mut [E],
    pub ghost rows_long: { length rows.now ≡ prime.number + prime.number },
    pub ghost diagonals_long: { length diagonals.now ≡ prime.number + prime.number },
    pub ghost antidiagonals_long: { length antidiagonals.now ≡ prime.number + prime.number },
}

/// Joins an element into the one at an index.
pub(crate) fn join_at<E: Element>(elements: &mut [E], index: usize, by: E)
    requires { index < length elements.old }
    ensures { (i : ℕ) → i < length elements.old
        → slice_index_or elements.new i E.zero ≡ E.join (slice_index_or elements.old i E.zero)
        (if nat_eq i index then by else E.zero) }
{
    elements[index] = elements[index].join(by);
}

/// Makes the first turn of a run the joins of the chains of one direction, with zero at its last index.
pub(crate) fn read_chains<E: Element>(stripe: &Stripe<'_, E>, direction: Direction, run: &mut [E])
    requires { stripe.now.prime.number ≤ length run.old }
    ensures { ChainJoins E.zero E.join stripe.now.prime.number (cells_of E.zero stripe.now) direction run.new }
{
    let last = stripe.prime.number - 1;
    let _read = stripe.chain_joins(direction, &mut run[..last]);
    run[last] = E::zero();
}

/// Reads the diagonals, in two turns.
pub(crate) fn read_diagonals<E: Element>(stripe: &Stripe<'_, E>, diagonals: &mut [E])
    requires { length diagonals.old ≡ stripe.now.prime.number + stripe.now.prime.number }
    ensures twice { Twice E.zero stripe.now.prime.number diagonals.new }
    ensures chains { ChainJoins E.zero E.join stripe.now.prime.number
        (cells_of E.zero stripe.now) Diagonal diagonals.new }
{
    read_chains(stripe, Direction::Diagonal, diagonals);
    repeat(stripe.prime, diagonals);
}

/// Reads the rows. At the last index stands the join of all rows and all diagonals.
fn read_rows<E: Element>(stripe: &Stripe<'_, E>, diagonals: &[E], rows: &mut [E])
    requires { (stripe.now.prime.number ≤ length diagonals.now) × (stripe.now.prime.number ≤ length rows.old) }
    ensures { RowChains E.zero E.join stripe.now.prime.number (cells_of E.zero stripe.now) diagonals.now rows.new }
{
    let last = stripe.prime.number - 1;
    read_chains(stripe, Direction::Row, rows);
    rows[last] = join_first(rows, last).join(join_first(diagonals, stripe.prime.number));
}

/// Reads the antidiagonals, and gives the join of all diagonals and all antidiagonals.
fn read_antidiagonals<E: Element>(
    stripe: &Stripe<'_, E>,
    diagonals: &[E],
    antidiagonals: &mut [E],
) -> E
    requires { (stripe.now.prime.number ≤ length diagonals.now) × (stripe.now.prime.number ≤ length antidiagonals.old) }
    ensures chains { ChainJoins E.zero E.join stripe.now.prime.number
        (cells_of E.zero stripe.now) Antidiagonal antidiagonals.new }
    ensures all { result ≡ E.join (all_of E.zero E.join stripe.now.prime.number diagonals.now)
        (all_of E.zero E.join stripe.now.prime.number antidiagonals.new) }
{
    let p = stripe.prime.number;
    read_chains(stripe, Direction::Antidiagonal, antidiagonals);
    join_first(diagonals, p).join(join_first(antidiagonals, p))
}

/// Reads the diagonals, in two turns, and the rows.
pub(crate) fn read_two<E: Element>(stripe: &Stripe<'_, E>, rows: &mut [E], diagonals: &mut [E])
    requires { (stripe.now.prime.number ≤ length rows.old)
        × (length diagonals.old ≡ stripe.now.prime.number + stripe.now.prime.number) }
    ensures twice { Twice E.zero stripe.now.prime.number diagonals.new }
    ensures diagonals { ChainJoins E.zero E.join stripe.now.prime.number
        (cells_of E.zero stripe.now) Diagonal diagonals.new }
    ensures rows { RowChains E.zero E.join stripe.now.prime.number (cells_of E.zero stripe.now) diagonals.new rows.new }
{
    read_diagonals(stripe, diagonals);
    read_rows(stripe, diagonals, rows);
}

/// Reads the diagonals, in two turns, and the antidiagonals, and gives the join of all of both.
pub(crate) fn read_crossed<E: Element>(
    stripe: &Stripe<'_, E>,
    diagonals: &mut [E],
    antidiagonals: &mut [E],
) -> E
    requires { (length diagonals.old ≡ stripe.now.prime.number + stripe.now.prime.number)
        × (stripe.now.prime.number ≤ length antidiagonals.old) }
    ensures twice { Twice E.zero stripe.now.prime.number diagonals.new }
    ensures diagonals { ChainJoins E.zero E.join stripe.now.prime.number
        (cells_of E.zero stripe.now) Diagonal diagonals.new }
    ensures antidiagonals { ChainJoins E.zero E.join stripe.now.prime.number
        (cells_of E.zero stripe.now) Antidiagonal antidiagonals.new }
    ensures all { result ≡ E.join (all_of E.zero E.join stripe.now.prime.number diagonals.new)
        (all_of E.zero E.join stripe.now.prime.number antidiagonals.new) }
{
    read_diagonals(stripe, diagonals);
    read_antidiagonals(stripe, diagonals, antidiagonals)
}

/// Reads all three, rows and diagonals in two turns, and gives the join of all diagonals and all antidiagonals.
pub(crate) fn read_three<E: Element>(
    stripe: &Stripe<'_, E>,
    rows: &mut [E],
    diagonals: &mut [E],
    antidiagonals: &mut [E],
) -> E
    requires lines { (length rows.old ≡ stripe.now.prime.number + stripe.now.prime.number)
        × (length diagonals.old ≡ stripe.now.prime.number + stripe.now.prime.number)
        × (stripe.now.prime.number ≤ length antidiagonals.old) }
    ensures twice { Twice E.zero stripe.now.prime.number rows.new × Twice E.zero stripe.now.prime.number diagonals.new }
    ensures diagonals { ChainJoins E.zero E.join stripe.now.prime.number
        (cells_of E.zero stripe.now) Diagonal diagonals.new }
    ensures rows { RowChains E.zero E.join stripe.now.prime.number (cells_of E.zero stripe.now) diagonals.new rows.new }
    ensures antidiagonals { ChainJoins E.zero E.join stripe.now.prime.number
        (cells_of E.zero stripe.now) Antidiagonal antidiagonals.new }
    ensures all { result ≡ E.join (all_of E.zero E.join stripe.now.prime.number diagonals.new)
        (all_of E.zero E.join stripe.now.prime.number antidiagonals.new) }
{
    read_diagonals(stripe, diagonals);
    read_rows(stripe, diagonals, rows);
    repeat(stripe.prime, rows);
    read_antidiagonals(stripe, diagonals, antidiagonals)
}

/// Folds an unfolded column back: its rows then hold the cells of the column. `parities` is the join of the two that
/// stand in it.
pub(crate) fn fold_back<E: Element>(prime: Prime, column: usize, run: &mut [E], parities: E)
    requires { (column < prime.number) × (prime.number ≤ length run.old) }
    ensures { (W : ℕ → ℕ → E) → Holds E.zero prime.number run.old (unfolded E.zero prime.number W column)
        → parities ≡ excess E.zero E.join prime.number W column
        → (r : ℕ) → r < prime.number - 1 → slice_index_or run.new r E.zero ≡ W r column }
{
    let p = prime.number;
    if column > 0 {
        let diagonal = run[p - 1];
        run[column - 1] = diagonal;
        run[p - 1 - column] = diagonal.join(parities);
    }
}

/// Joins a turn of a run with the mirror image of another: the rows from 0 to p - 2 seen from the other end, and the
/// last index.
fn mirror<E: Element>(prime: Prime, run: &[E], other: &[E], folded: &mut [E])
    requires { (prime.number ≤ length run.now) × (prime.number ≤ length other.now)
        × (prime.number ≤ length folded.old) }
    ensures { Mirrored E.zero E.join prime.number run.now other.now folded.new }
{
    let p = prime.number;
    // By index: of a slice that a `zip` over its `iter_mut` has written, nothing can be proved but its length.
    for i in 0..p - 1 {
        folded[i] = run[i].join(other[p - 2 - i]);
    }
    folded[p - 1] = run[p - 1].join(other[p - 1]);
}

impl<'a, E: Element> Sums<'a, E> {
    ghost use Rattle.std.specs.Prelude.{◌≡◌, ℕ, ◌+◌, ◌-◌, ◌*◌, ◌%◌, ◌<◌, ◌≤◌, length, slice_index_or};
    ghost use Rattle.tip_code.specs.Buffer.{cells_of};
    ghost use Rattle.tip_algebra.specs.Cyclic.{Mirrored, Twice, opposite};

    /// Cuts three runs of two turns off the room, which may hold anything. The rest stays in `room`: of a function
    /// that gives a struct with ghost fields and a `&mut` in one tuple nothing would be proved.
    pub(crate) fn within(prime: Prime, room: &mut &'a mut [E]) -> Sums<'a, E>
        requires { 6 * prime.number ≤ length room.old.now }
        ensures prime { result.prime.number ≡ prime.number }
        ensures rest { length room.new.now + 6 * prime.number ≡ length room.old.now }
    {
        let twice = 2 * prime.number;
        let (rows, rest) = std::mem::take(room).split_at_mut(twice);
        let (diagonals, rest) = rest.split_at_mut(twice);
        let (antidiagonals, rest) = rest.split_at_mut(twice);
        *room = rest;
        Sums {
            prime,
            rows,
            diagonals,
            antidiagonals,
        }
    }

    /// Joins the diagonals and the antidiagonals with their mirror images, that of each is seen in the other, and
    /// repeats them.
    pub(crate) fn fold_lines_into(&self, folded: &mut Sums<'_, E>)
        requires { folded.old.prime.number ≡ self.now.prime.number }
        ensures prime { folded.new.prime.number ≡ self.now.prime.number }
        ensures diagonals { Mirrored E.zero E.join self.now.prime.number
            self.now.diagonals.now self.now.antidiagonals.now folded.new.diagonals.now }
        ensures antidiagonals { Mirrored E.zero E.join self.now.prime.number
            self.now.antidiagonals.now self.now.diagonals.now folded.new.antidiagonals.now }
        ensures twice { Twice E.zero self.now.prime.number folded.new.diagonals.now
            × Twice E.zero self.now.prime.number folded.new.antidiagonals.now }
    {
        mirror(
            self.prime,
            self.diagonals,
            self.antidiagonals,
            folded.diagonals,
        );
        mirror(
            self.prime,
            self.antidiagonals,
            self.diagonals,
            folded.antidiagonals,
        );
        repeat(self.prime, folded.diagonals);
        repeat(self.prime, folded.antidiagonals);
    }

    /// Joins each run with its mirror image, that of the rows is seen in themselves, and repeats it. Last of the
    /// rows stands `all`.
    pub(crate) fn fold_into(&self, all: E, folded: &mut Sums<'_, E>)
        requires { folded.old.prime.number ≡ self.now.prime.number }
        ensures prime { folded.new.prime.number ≡ self.now.prime.number }
        ensures rows { (i : ℕ) → i < self.now.prime.number - 1
            → slice_index_or folded.new.rows.now i E.zero ≡ E.join (slice_index_or self.now.rows.now i E.zero)
            (slice_index_or self.now.rows.now (opposite self.now.prime.number i % self.now.prime.number) E.zero) }
        ensures last { slice_index_or folded.new.rows.now (self.now.prime.number - 1) E.zero ≡ all }
        ensures diagonals { Mirrored E.zero E.join self.now.prime.number
            self.now.diagonals.now self.now.antidiagonals.now folded.new.diagonals.now }
        ensures antidiagonals { Mirrored E.zero E.join self.now.prime.number
            self.now.antidiagonals.now self.now.diagonals.now folded.new.antidiagonals.now }
        ensures twice { Twice E.zero self.now.prime.number folded.new.rows.now
            × Twice E.zero self.now.prime.number folded.new.diagonals.now
            × Twice E.zero self.now.prime.number folded.new.antidiagonals.now }
    {
        self.fold_lines_into(folded);
        mirror(self.prime, self.rows, self.rows, folded.rows);
        folded.rows[self.prime.number - 1] = all;
        repeat(self.prime, folded.rows);
    }
}
