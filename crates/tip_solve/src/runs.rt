// Runs of elements that hold a column: one turn of p elements, or two of the same, which can be read from any index
// on.
ghost use Rattle.std.specs.Prelude.{◌≡◌, ℕ, ◌+◌, ◌<◌, ◌≤◌, length, slice_index_or};
ghost use Rattle.tip_element.specs.Counts.{join_below};
ghost use Rattle.tip_algebra.specs.Cyclic.{Twice};

use tip_code::prime::Prime;
use tip_element::element::Element;
use tip_element::slices::join_all;

/// Copies the first turn of a run onto the second.
pub(crate) fn repeat<E: Element>(prime: Prime, run: &mut [E])
    requires { length run.old ≡ prime.number + prime.number }
    ensures twice { Twice E.zero prime.number run.new }
    ensures first { (i : ℕ) → i < prime.number → slice_index_or run.new i E.zero ≡ slice_index_or run.old i E.zero }
{
    let (first, second) = run.split_at_mut(prime.number);
    second.copy_from_slice(first);
}

/// The join of the first elements of a run.
pub(crate) fn join_first<E: Element>(run: &[E], many: usize) -> E
    requires { many ≤ length run.now }
    ensures { result ≡ join_below E.zero E.join many (λ i. slice_index_or run.now i E.zero) }
{
    join_all(&run[..many])
}

/// Joins a column into the first p elements of a sum, from one of its indices on.
pub(crate) fn join_from<E: Element>(prime: Prime, from: usize, column: &[E], sum: &mut [E])
    requires { (from + prime.number ≤ length column.now) × (prime.number ≤ length sum.old) }
    ensures { (i : ℕ) → i < prime.number
        → slice_index_or sum.new i E.zero ≡ E.join (slice_index_or sum.old i E.zero)
        (slice_index_or column.now (i + from) E.zero) }
{
    for i in 0..prime.number {
        sum[i] = sum[i].join(column[i + from]);
    }
}

/// Makes the first p elements of a run the joins of two columns, each from one of its indices on.
pub(crate) fn join_two<E: Element>(
    prime: Prime,
    one: &[E],
    from: usize,
    other: &[E],
    on: usize,
    joins: &mut [E],
)
    requires { (from + prime.number ≤ length one.now) × (on + prime.number ≤ length other.now)
        × (prime.number ≤ length joins.old) }
    ensures { (i : ℕ) → i < prime.number
        → slice_index_or joins.new i E.zero ≡ E.join (slice_index_or one.now (i + from) E.zero)
        (slice_index_or other.now (i + on) E.zero) }
{
    for i in 0..prime.number {
        joins[i] = one[i + from].join(other[i + on]);
    }
}
