// The lost columns of a stripe, found and written back. They are set to zero first: what a chain then joins to is
// what its lost cells do. Each number of lost columns has a way of its own, and two have one with the row parities
// and one without.
ghost use Rattle.std.specs.Prelude.{◌≡◌, ℕ, ◌+◌, ◌-◌, ◌*◌, ◌<◌, ◌≤◌, true, false, List, length, slice_index_or};
ghost use Rattle.tip_code.specs.Buffer.{cells_of, SameBuffer};
ghost use Rattle.tip_code.specs.Encoding.{line_join, Encoded};
ghost use Rattle.tip_code.specs.Stripe.{stripe_of};
ghost use Rattle.tip_code.specs.declared.chain.Direction.TheVariants.{Row};
ghost use Rattle.tip_algebra.specs.Known.{KnownSums, RowSums};
ghost use Rattle.tip_algebra.specs.Unfolded.{excess};
ghost use Rattle.tip_columns.specs.Sets.{in_set, size};
ghost use Rattle.tip_algebra.specs.Cyclic.{Twice};
ghost use Rattle.tip_solve.specs.Finding.{ListsColumn, FoundColumns, SolvedBelow};
ghost use Rattle.tip_solve.specs.Seeking.{sought};
ghost use Rattle.tip_solve.specs.Solving.{Solved};
ghost use Rattle.tip_solve.specs.Writing.{Elsewhere};
ghost use Rattle.tip_solve.specs.declared.sought.Sought.TheVariants.{One, Two, Three};

use super::buffer::{clear_column, set_antidiagonal, write_column, write_unfolded};
use super::runs::repeat;
use super::sought::{Pair, Sought, Triple};
use super::sums::{
    Sums, fold_back, join_at, read_chains, read_crossed, read_diagonals, read_three, read_two,
};
use super::system::{find_first, find_first_crossed, find_last, find_last_crossed, find_outer};
use tip_code::chain::Direction;
use tip_code::prime::Prime;
use tip_code::stripe::Stripe;
use tip_columns::Columns;
use tip_element::element::Element;

/// Cuts a run of p elements off the room, and gives it with the rest.
fn next_run<E: Element>(prime: Prime, room: &mut [E]) -> (&mut [E], &mut [E])
    requires { prime.number ≤ length room.old }
    ensures run { length result.0.now ≡ prime.number }
    ensures rest { length result.1.now + prime.number ≡ length room.old }
{
    room.split_at_mut(prime.number)
}

/// Cuts a run of two turns off the room, and gives it with the rest.
fn next_turns<E: Element>(prime: Prime, room: &mut [E]) -> (&mut [E], &mut [E])
    requires { 2 * prime.number ≤ length room.old }
    ensures run { length result.0.now ≡ prime.number + prime.number }
    ensures rest { length result.1.now + 2 * prime.number ≡ length room.old }
{
    room.split_at_mut(2 * prime.number)
}

/// Cuts three runs of p elements off the room.
fn three_runs<E: Element>(prime: Prime, room: &mut [E]) -> (&mut [E], &mut [E], &mut [E])
    requires { 3 * prime.number ≤ length room.old }
    ensures first { length result.0.now ≡ prime.number }
    ensures second { length result.1.now ≡ prime.number }
    ensures third { length result.2.now + 2 * prime.number ≡ length room.old }
{
    let (a, rest) = next_run(prime, room);
    let (b, rest) = next_run(prime, rest);
    (a, b, rest)
}

/// Finds one column from the diagonals, each of which meets it once.
#[inline(never)]
fn recover_one<E: Element>(column: usize, stripe: &mut Stripe<'_, E>, diagonals: &mut [E])
    requires { (column < stripe.old.prime.number) × (length diagonals.old
        ≡ stripe.old.prime.number + stripe.old.prime.number) }
    ensures same { SameBuffer stripe.old stripe.new }
    ensures found { FoundColumns E.zero E.join stripe.old.prime.number (One column) false
        (cells_of E.zero stripe.old) (stripe_of E.zero stripe.old.prime.number stripe.new.cells.now) }
{
    let prime = stripe.prime;
    clear_column(prime, column, stripe.cells);
    read_diagonals(stripe, diagonals);
    write_unfolded(prime, column, &diagonals[column..], stripe.cells);
    set_antidiagonal(column, stripe);
}

/// Finds two columns from the rows and the diagonals.
#[inline(never)]
fn recover_two<E: Element>(
    at: Pair,
    stripe: &mut Stripe<'_, E>,
    sums: &mut Sums<'_, E>,
    room: &mut [E],
)
    requires prime { sums.old.prime.number ≡ stripe.old.prime.number }
    requires room { (at.last < stripe.old.prime.number) × (3 * stripe.old.prime.number ≤ length room.old) }
    ensures same { SameBuffer stripe.old stripe.new }
    ensures found { FoundColumns E.zero E.join stripe.old.prime.number (Two at) true
        (cells_of E.zero stripe.old) (stripe_of E.zero stripe.old.prime.number stripe.new.cells.now) }
{
    let prime = stripe.prime;
    let (joins, first, last) = three_runs(prime, room);
    clear_column(prime, at.first, stripe.cells);
    clear_column(prime, at.last, stripe.cells);
    read_two(stripe, sums.rows, sums.diagonals);
    find_last(at, sums, joins, last);
    find_first(sums, last, first);
    write_unfolded(prime, at.first, first, stripe.cells);
    write_unfolded(prime, at.last, last, stripe.cells);
    set_antidiagonal(at.first, stripe);
    set_antidiagonal(at.last, stripe);
}

/// Of two unknown columns, the join of the two parities that stand in each; `all` is that of all known columns.
/// Joined with its mirror image a column shows it at the last index, whichever parities are lost.
fn parities_of_two<E: Element>(at: Pair, all: E, sums: &Sums<'_, E>, mut room: &mut [E]) -> (E, E)
    requires { (at.last < sums.now.prime.number) × (9 * sums.now.prime.number ≤ length room.old) }
    ensures { (X : ℕ → ℕ → E) (r : List E) → Encoded E.zero E.join sums.now.prime.number X
        → KnownSums E.zero E.join sums.now.prime.number
        (sought (Two at)) X sums.now.diagonals.now sums.now.antidiagonals.now r all
        → (result.0 ≡ excess E.zero E.join sums.now.prime.number X at.first)
        × (result.1 ≡ excess E.zero E.join sums.now.prime.number X at.last) }
{
    let prime = sums.prime;
    let mut folded = Sums::within(prime, &mut room);
    let (joins, last, _rest) = three_runs(prime, room);
    sums.fold_lines_into(&mut folded);
    find_last_crossed(at, &folded, joins, last);
    let of_last = last[prime.number - 1];
    (all.join(of_last), of_last)
}

/// Finds two columns, which `first` and `last` then hold, from what the diagonals and the antidiagonals join to.
fn cells_of_two<E: Element>(
    at: Pair,
    all: E,
    sums: &mut Sums<'_, E>,
    first: &mut [E],
    last: &mut [E],
    room: &mut [E],
)
    requires below { at.last < sums.old.prime.number }
    requires sized { (sums.old.prime.number ≤ length first.old)
        × (length last.old ≡ sums.old.prime.number + sums.old.prime.number)
        × (9 * sums.old.prime.number ≤ length room.old) }
    requires twice { Twice E.zero sums.old.prime.number sums.old.diagonals.now }
    ensures { (X : ℕ → ℕ → E) (r : List E) → Encoded E.zero E.join sums.old.prime.number X
        → KnownSums E.zero E.join sums.old.prime.number
        (sought (Two at)) X sums.old.diagonals.now sums.old.antidiagonals.now r all
        → ListsColumn E.zero sums.old.prime.number X at.first first.new
        × ListsColumn E.zero sums.old.prime.number X at.last last.new }
{
    let prime = sums.prime;
    let (of_first, of_last) = parities_of_two(at, all, sums, room);
    join_at(sums.antidiagonals, prime.number - 1 - at.first, of_first);
    join_at(sums.antidiagonals, prime.number - 1 - at.last, of_last);
    repeat(prime, sums.antidiagonals);
    find_last_crossed(at, sums, room, last);
    repeat(prime, last);
    find_first_crossed(at, sums, last, first);
    fold_back(prime, at.first, first, of_first);
    fold_back(prime, at.last, last, of_last);
}

/// Finds two columns from the diagonals and the antidiagonals, where the row parities are lost too.
#[inline(never)]
fn recover_crossed<E: Element>(
    at: Pair,
    stripe: &mut Stripe<'_, E>,
    sums: &mut Sums<'_, E>,
    room: &mut [E],
)
    requires prime { sums.old.prime.number ≡ stripe.old.prime.number }
    requires room { (at.last < stripe.old.prime.number) × (12 * stripe.old.prime.number ≤ length room.old) }
    ensures same { SameBuffer stripe.old stripe.new }
    ensures found { FoundColumns E.zero E.join stripe.old.prime.number (Two at) false
        (cells_of E.zero stripe.old) (stripe_of E.zero stripe.old.prime.number stripe.new.cells.now) }
{
    let prime = stripe.prime;
    let (first, room) = next_run(prime, room);
    let (last, room) = next_turns(prime, room);
    clear_column(prime, at.first, stripe.cells);
    clear_column(prime, at.last, stripe.cells);
    let all = read_crossed(stripe, sums.diagonals, sums.antidiagonals);
    cells_of_two(at, all, sums, first, last, room);
    write_column(prime, at.first, first, stripe.cells);
    write_column(prime, at.last, last, stripe.cells);
}

/// Of three unknown columns, the join of the two parities that stand in each; `all` is that of all known columns.
/// `joins`, `middle` and `last` are room on the way too.
fn parities_of_three<E: Element>(
    at: Triple,
    all: E,
    sums: &Sums<'_, E>,
    joins: &mut [E],
    middle: &mut [E],
    last: &mut [E],
    mut room: &mut [E],
) -> (E, E, E)
    requires below { at.last < sums.now.prime.number }
    requires sized { (sums.now.prime.number ≤ length joins.old)
        × (length middle.old ≡ sums.now.prime.number + sums.now.prime.number)
        × (sums.now.prime.number ≤ length last.old) × (7 * sums.now.prime.number ≤ length room.old) }
    ensures { (X : ℕ → ℕ → E) (r : List E) → Encoded E.zero E.join sums.now.prime.number X
        → KnownSums E.zero E.join sums.now.prime.number
        (sought (Three at)) X sums.now.diagonals.now sums.now.antidiagonals.now r all
        → RowSums E.zero E.join sums.now.prime.number X r sums.now.rows.now
        → (result.0 ≡ excess E.zero E.join sums.now.prime.number X at.first)
        × (result.1 ≡ excess E.zero E.join sums.now.prime.number X at.middle)
        × (result.2 ≡ excess E.zero E.join sums.now.prime.number X at.last) }
{
    let prime = sums.prime;
    let mut folded = Sums::within(prime, &mut room);
    let (steps, _room) = next_run(prime, room);
    sums.fold_into(all, &mut folded);
    find_outer(at, &mut folded, joins, steps, middle, last);
    let of_middle = middle[prime.number - 1];
    let of_last = last[prime.number - 1];
    (all.join(of_middle).join(of_last), of_middle, of_last)
}

/// Finds three columns, which `first`, `middle` and `last` then hold, from what all chains join to.
fn cells_of_three<E: Element>(
    at: Triple,
    all: E,
    sums: &mut Sums<'_, E>,
    first: &mut [E],
    middle: &mut [E],
    last: &mut [E],
    room: &mut [E],
)
    requires below { at.last < sums.old.prime.number }
    requires sized { (sums.old.prime.number ≤ length first.old)
        × (length middle.old ≡ sums.old.prime.number + sums.old.prime.number)
        × (sums.old.prime.number ≤ length last.old) × (7 * sums.old.prime.number ≤ length room.old) }
    requires twice { Twice E.zero sums.old.prime.number sums.old.rows.now
        × Twice E.zero sums.old.prime.number sums.old.diagonals.now }
    ensures { (X : ℕ → ℕ → E) (r : List E) → Encoded E.zero E.join sums.old.prime.number X
        → KnownSums E.zero E.join sums.old.prime.number
        (sought (Three at)) X sums.old.diagonals.now sums.old.antidiagonals.now r all
        → RowSums E.zero E.join sums.old.prime.number X r sums.old.rows.now
        → ListsColumn E.zero sums.old.prime.number X at.first first.new
        × ListsColumn E.zero sums.old.prime.number X at.middle middle.new
        × ListsColumn E.zero sums.old.prime.number X at.last last.new }
{
    let prime = sums.prime;
    let (of_first, of_middle, of_last) = parities_of_three(
        at, all, sums, first, middle, last, room,
    );
    join_at(sums.antidiagonals, prime.number - 1 - at.first, of_first);
    join_at(sums.antidiagonals, prime.number - 1 - at.middle, of_middle);
    join_at(sums.antidiagonals, prime.number - 1 - at.last, of_last);
    repeat(prime, sums.antidiagonals);
    let (joins, steps, _room) = three_runs(prime, room);
    find_outer(at, sums, joins, steps, middle, last);
    find_first(sums, last, first);
    fold_back(prime, at.first, first, of_first);
    fold_back(prime, at.middle, middle, of_middle);
    fold_back(prime, at.last, last, of_last);
}

/// Finds three columns from all chains.
#[inline(never)]
fn recover_three<E: Element>(
    at: Triple,
    stripe: &mut Stripe<'_, E>,
    sums: &mut Sums<'_, E>,
    room: &mut [E],
)
    requires prime { sums.old.prime.number ≡ stripe.old.prime.number }
    requires room { (at.last < stripe.old.prime.number) × (12 * stripe.old.prime.number ≤ length room.old) }
    ensures same { SameBuffer stripe.old stripe.new }
    ensures found { FoundColumns E.zero E.join stripe.old.prime.number (Three at) true
        (cells_of E.zero stripe.old) (stripe_of E.zero stripe.old.prime.number stripe.new.cells.now) }
{
    let prime = stripe.prime;
    let (first, room) = next_run(prime, room);
    let (last, room) = next_run(prime, room);
    let (middle, room) = next_turns(prime, room);
    clear_column(prime, at.first, stripe.cells);
    clear_column(prime, at.middle, stripe.cells);
    clear_column(prime, at.last, stripe.cells);
    let all = read_three(stripe, sums.rows, sums.diagonals, sums.antidiagonals);
    cells_of_three(at, all, sums, first, middle, last, room);
    write_column(prime, at.first, first, stripe.cells);
    write_column(prime, at.middle, middle, stripe.cells);
    write_column(prime, at.last, last, stripe.cells);
}

/// Sets the row parities, from the data cells of all columns.
fn recover_rows<E: Element>(stripe: &mut Stripe<'_, E>, run: &mut [E])
    requires { stripe.old.prime.number ≤ length run.old }
    ensures same { SameBuffer stripe.old stripe.new }
    ensures elsewhere { Elsewhere stripe.old.prime.number stripe.old.prime.number
        (cells_of E.zero stripe.old) (stripe_of E.zero stripe.old.prime.number stripe.new.cells.now) }
    ensures here { (r : ℕ) → r < stripe.old.prime.number - 1
        → stripe_of E.zero stripe.old.prime.number stripe.new.cells.now r stripe.old.prime.number
        ≡ line_join E.zero E.join stripe.old.prime.number (cells_of E.zero stripe.old) Row r }
{
    let prime = stripe.prime;
    clear_column(prime, prime.number, stripe.cells);
    read_chains(stripe, Direction::Row, run);
    write_column(prime, prime.number, run, stripe.cells);
}

/// Solves the lost columns below p, of at most three lost ones.
fn recover_below<E: Element>(
    lost: Columns,
    stripe: &mut Stripe<'_, E>,
    sums: &mut Sums<'_, E>,
    room: &mut [E],
)
    requires prime { sums.old.prime.number ≡ stripe.old.prime.number }
    requires room { (size lost ≤ 3) × (12 * stripe.old.prime.number ≤ length room.old) }
    ensures same { SameBuffer stripe.old stripe.new }
    ensures solved { SolvedBelow E.zero E.join stripe.old.prime.number (in_set lost)
        (cells_of E.zero stripe.old) (stripe_of E.zero stripe.old.prime.number stripe.new.cells.now) }
{
    match Sought::of(stripe.prime, lost) {
        Sought::Nothing => {}
        Sought::One(column) => recover_one(column, stripe, sums.diagonals),
        Sought::Two(at) => {
            if lost.has(stripe.prime.number) {
                recover_crossed(at, stripe, sums, room);
            } else {
                recover_two(at, stripe, sums, room);
            }
        }
        Sought::Three(at) => recover_three(at, stripe, sums, room),
    }
}

/// Solves at most three lost columns.
fn recover_with<E: Element>(
    lost: Columns,
    stripe: &mut Stripe<'_, E>,
    sums: &mut Sums<'_, E>,
    room: &mut [E],
)
    requires prime { sums.old.prime.number ≡ stripe.old.prime.number }
    requires room { (size lost ≤ 3) × (12 * stripe.old.prime.number ≤ length room.old) }
    ensures same { SameBuffer stripe.old stripe.new }
    ensures solved { Solved E.zero E.join stripe.old.prime.number (in_set lost)
        (cells_of E.zero stripe.old) (stripe_of E.zero stripe.old.prime.number stripe.new.cells.now) }
{
    recover_below(lost, stripe, sums, room);
    if lost.has(stripe.prime.number) {
        recover_rows(stripe, room);
    }
}

/// Solves at most three lost columns. That they are so few is found once by the caller, and asked for here and by
/// `Sought::of`: a type of such sets would be made and taken apart on the way.
pub(crate) fn recover<E: Element>(lost: Columns, stripe: &mut Stripe<'_, E>, mut room: &mut [E])
    requires { (size lost ≤ 3) × (18 * stripe.old.prime.number ≤ length room.old) }
    ensures same { SameBuffer stripe.old stripe.new }
    ensures solved { Solved E.zero E.join stripe.old.prime.number (in_set lost)
        (cells_of E.zero stripe.old) (stripe_of E.zero stripe.old.prime.number stripe.new.cells.now) }
{
    let prime = stripe.prime;
    let mut sums = Sums::within(prime, &mut room);
    recover_with(lost, stripe, &mut sums, room);
}
