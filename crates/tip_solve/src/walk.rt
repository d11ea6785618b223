// Dividing by one plus a shift: a column from its joins with itself moved on.
ghost use Rattle.std.specs.Prelude.{◌≡◌, ℕ, ◌+◌, ◌%◌, ◌<◌, ◌≤◌, length, slice_index_or};
ghost use Rattle.tip_algebra.specs.Cyclic.{Steps, Divided};

use tip_code::prime::Prime;
use tip_element::element::Element;

/// The index one step on. Indices and steps are plain numbers of loops, so that they are below p is said in clauses.
fn next_index(prime: Prime, at: usize, step: usize) -> usize
    requires { (at < prime.number) × (step < prime.number) }
    ensures value { result ≡ (at + step) % prime.number }
    ensures within { result < prime.number }
{
    prime.wrapped(at + step)
}

/// Walks once round from an index by steps of `step`, which reaches every index since p is prime: `quotient` becomes
/// the column whose joins with itself moved by `step` stand in `joins`, with its element at `from` joined onto each.
pub(crate) fn divide<E: Element>(
    prime: Prime,
    step: usize,
    from: usize,
    joins: &[E],
    quotient: &mut [E],
)
    requires walk { (0 < step) × (step < prime.number) × (from < prime.number) }
    requires long { (prime.number ≤ length joins.now) × (prime.number ≤ length quotient.old) }
    ensures { (s : ℕ → E) → Steps E.zero E.join prime.number step joins.now s
        → Divided E.zero E.join prime.number from quotient.new s }
{
    let mut at = from;
    let mut joined = E::zero();
    quotient[from] = joined;
    // By index: the walk goes round by steps, in an order in which no iterator over a run goes.
    for _turn in 1..prime.number {
        at = next_index(prime, at, step);
        joined = joined.join(joins[at]);
        quotient[at] = joined;
    }
}

/// Joins an element onto each.
pub(crate) fn join_onto<E: Element>(elements: &mut [E], by: E)
    ensures { (k : ℕ) → k < length elements.old → slice_index_or elements.new k E.zero
        ≡ E.join (slice_index_or elements.old k E.zero) by }
{
    for element in elements.iter_mut() {
        *element = element.join(by);
    }
}
