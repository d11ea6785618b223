// Runs of elements: plain loops that the compiler can vectorise.
ghost use Rattle.std.specs.Prelude.{◌≡◌, length, slice_index_or};
ghost use Rattle.tip_element.specs.Counts.{join_below};
ghost use Rattle.tip_element.specs.Laws.{Exactly};
ghost use Rattle.tip_element.specs.Slices.{AllZero, Joined};

use super::element::Element;

/// The join of all elements; zero where there is none.
pub fn join_all<E: Element>(elements: &[E]) -> E
    ensures { result ≡ join_below E.zero E.join (length elements.now) (λ i. slice_index_or elements.now i E.zero) }
{
    let mut all = E::zero();
    // A plain loop and no `fold`, as all joins and zero tests over runs are here: the compiler vectorises it.
    for element in elements {
        all = all.join(*element);
    }
    all
}

/// Joins each of the others into the element at its index. Where one run is longer, what is beyond the shorter stays.
pub fn join_each<E: Element>(elements: &mut [E], others: &[E])
    ensures { Joined E.zero E.join elements.old others.now elements.new }
{
    // By index: of a slice that a `zip` over its `iter_mut` has written, nothing can be proved but its length, and with `enumerate` the
    // others would still be reached by index.
    for i in 0..elements.len().min(others.len()) {
        elements[i] = elements[i].join(others[i]);
    }
}

/// Whether every element is zero, exactly.
pub fn all_zero<E: Element>(elements: &[E]) -> bool
    ensures { Exactly result (AllZero E.zero elements.now) }
{
    // A plain loop and no `all`, as in `join_all`.
    for element in elements {
        if !element.is_zero() {
            return false;
        }
    }
    true
}

/// Makes every element zero.
pub fn clear<E: Element>(elements: &mut [E])
    ensures { AllZero E.zero elements.new }
{
    // No `fill`: it asks that a `clone` of the element cannot fail, which is not known of every kind.
    for element in elements.iter_mut() {
        *element = E::zero();
    }
}
