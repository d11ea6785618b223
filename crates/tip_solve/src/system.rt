// Unknown columns from their joins along the lines of a stripe. The joins are runs of p elements, or of two turns
// where they are read from other indices on.
ghost use Rattle.std.specs.Prelude.{◌≡◌, ℕ, ◌+◌, ◌-◌, ◌*◌, ◌%◌, ◌<◌, ◌≤◌, length, slice_index_or};
ghost use Rattle.tip_algebra.specs.Cyclic.{Holds, Twice};
ghost use Rattle.tip_algebra.specs.Unknown.{PairSums, RowPairSums, TripleSums};

use super::runs::{join_first, join_from, join_two, repeat};
use super::sought::{Pair, Triple};
use super::sums::Sums;
use super::walk::{divide, join_onto};
use tip_element::element::Element;

/// Finds the last of two unknown columns from their joins along rows and diagonals; `joins` is room on the way.
pub(crate) fn find_last<E: Element>(at: Pair, sums: &Sums<'_, E>, joins: &mut [E], last: &mut [E])
    requires below { at.last < sums.now.prime.number }
    requires sized { (sums.now.prime.number ≤ length joins.old) × (sums.now.prime.number ≤ length last.old) }
    requires twice { Twice E.zero sums.now.prime.number sums.now.diagonals.now }
    ensures { (X Y : ℕ → E)
        → RowPairSums E.zero E.join sums.now.prime.number at.first at.last sums.now.rows.now sums.now.diagonals.now X Y
        → Holds E.zero sums.now.prime.number last.new Y }
{
    let prime = sums.prime;
    join_two(prime, sums.rows, 0, sums.diagonals, at.first, joins);
    divide(
        prime,
        at.last - at.first,
        prime.number - 1 - at.last,
        joins,
        last,
    );
}

/// Finds the first of two unknown columns from their joins along rows and the last one.
pub(crate) fn find_first<E: Element>(sums: &Sums<'_, E>, last: &[E], first: &mut [E])
    requires { (sums.now.prime.number ≤ length last.now) × (sums.now.prime.number ≤ length first.old) }
    ensures { (i : ℕ) → i < sums.now.prime.number
        → slice_index_or first.new i E.zero ≡ E.join (slice_index_or sums.now.rows.now i E.zero)
        (slice_index_or last.now i E.zero) }
{
    join_two(sums.prime, sums.rows, 0, last, 0, first);
}

/// Finds the last of two unknown columns from their joins along diagonals and antidiagonals; `joins` is room on the
/// way.
pub(crate) fn find_last_crossed<E: Element>(
    at: Pair,
    sums: &Sums<'_, E>,
    joins: &mut [E],
    last: &mut [E],
)
    requires below { at.last < sums.now.prime.number }
    requires sized { (sums.now.prime.number ≤ length joins.old) × (sums.now.prime.number ≤ length last.old) }
    requires twice { Twice E.zero sums.now.prime.number sums.now.diagonals.now
        × Twice E.zero sums.now.prime.number sums.now.antidiagonals.now }
    ensures { (X Y : ℕ → E)
        → PairSums E.zero E.join sums.now.prime.number at.first at.last sums.now.diagonals.now
        sums.now.antidiagonals.now X Y
        → Holds E.zero sums.now.prime.number last.new Y }
{
    let prime = sums.prime;
    let p = prime.number;
    let diagonal = prime.wrapped(p + at.first + at.first - at.last);
    join_two(
        prime,
        sums.diagonals,
        diagonal,
        sums.antidiagonals,
        p - at.last,
        joins,
    );
    let distance = at.last - at.first;
    let step = prime.wrapped(distance + distance);
    divide(prime, step, p - 1 - at.last, joins, last);
}

/// Finds the first of two unknown columns from their joins along diagonals and the last one, in two turns.
pub(crate) fn find_first_crossed<E: Element>(
    at: Pair,
    sums: &Sums<'_, E>,
    last: &[E],
    first: &mut [E],
)
    requires below { at.last < sums.now.prime.number }
    requires sized { (length last.now ≡ sums.now.prime.number + sums.now.prime.number)
        × (sums.now.prime.number ≤ length first.old) }
    requires twice { Twice E.zero sums.now.prime.number sums.now.diagonals.now
        × Twice E.zero sums.now.prime.number last.now }
    ensures { (X Y : ℕ → E)
        → PairSums E.zero E.join sums.now.prime.number at.first at.last sums.now.diagonals.now
        sums.now.antidiagonals.now X Y
        → Holds E.zero sums.now.prime.number last.now Y → Holds E.zero sums.now.prime.number first.new X }
{
    let turn = sums.prime.number + at.first - at.last;
    join_two(sums.prime, sums.diagonals, at.first, last, turn, first);
}

/// Finds the middle one of three unknown columns, in two turns, from their joins; `joins` and `steps` are room on
/// the way.
fn find_middle<E: Element>(
    at: Triple,
    sums: &Sums<'_, E>,
    joins: &mut [E],
    steps: &mut [E],
    middle: &mut [E],
)
    requires below { at.last < sums.now.prime.number }
    requires sized { (sums.now.prime.number ≤ length joins.old) × (length steps.old ≡ sums.now.prime.number)
        × (length middle.old ≡ sums.now.prime.number + sums.now.prime.number) }
    requires twice { Twice E.zero sums.now.prime.number sums.now.rows.now
        × Twice E.zero sums.now.prime.number sums.now.diagonals.now
        × Twice E.zero sums.now.prime.number sums.now.antidiagonals.now }
    ensures twice { Twice E.zero sums.now.prime.number middle.new }
    ensures found { (X M Y : ℕ → E)
        → TripleSums E.zero E.join sums.now.prime.number at.first at.middle at.last
        sums.now.rows.now sums.now.diagonals.now sums.now.antidiagonals.now X M Y
        → Holds E.zero sums.now.prime.number middle.new M }
{
    let prime = sums.prime;
    let p = prime.number;
    join_two(
        prime,
        sums.rows,
        0,
        sums.rows,
        p + at.first - at.last,
        joins,
    );
    join_from(prime, at.first, sums.diagonals, joins);
    join_from(prime, p - at.last, sums.antidiagonals, joins);
    divide(prime, at.middle - at.first, 0, joins, steps);
    let all = join_first(steps, p);
    join_onto(steps, all);
    divide(prime, at.last - at.middle, p - 1 - at.middle, steps, middle);
    repeat(prime, middle);
}

/// Finds the middle and the last one of three unknown columns from their joins, of which those along rows are left as
/// what the first and the last join to.
pub(crate) fn find_outer<E: Element>(
    at: Triple,
    sums: &mut Sums<'_, E>,
    joins: &mut [E],
    steps: &mut [E],
    middle: &mut [E],
    last: &mut [E],
)
    requires below { at.last < sums.old.prime.number }
    requires sized { (sums.old.prime.number ≤ length joins.old) × (length steps.old ≡ sums.old.prime.number)
        × (length middle.old ≡ sums.old.prime.number + sums.old.prime.number)
        × (sums.old.prime.number ≤ length last.old) }
    requires twice { Twice E.zero sums.old.prime.number sums.old.rows.now
        × Twice E.zero sums.old.prime.number sums.old.diagonals.now
        × Twice E.zero sums.old.prime.number sums.old.antidiagonals.now }
    ensures prime { sums.new.prime.number ≡ sums.old.prime.number }
    ensures found { (X M Y : ℕ → E)
        → TripleSums E.zero E.join sums.old.prime.number at.first at.middle at.last
        sums.old.rows.now sums.old.diagonals.now sums.old.antidiagonals.now X M Y
        → Holds E.zero sums.old.prime.number middle.new M × Holds E.zero sums.old.prime.number last.new Y
        × Holds E.zero sums.old.prime.number sums.new.rows.now (λ i. E.join (X i) (Y i)) }
{
    let prime = sums.prime;
    find_middle(at, sums, joins, steps, middle);
    join_from(prime, 0, middle, sums.rows);
    join_from(prime, prime.number - at.middle, middle, sums.diagonals);
    repeat(prime, sums.diagonals);
    let Triple {
        first,
        last: end,
        ..
    } = at;
    find_last(Pair { first, last: end }, sums, joins, last);
}
