//! Sets of columns, as masks.
#![tactic(auto)]

ghost use Rattle.std.specs.Prelude.{◌≡◌, ℕ, ◌+◌, ◌/◌, ◌^◌, ◌<◌, ◌≤◌, true, ◌||◌, MatchOption, ◌==◌, count_ones};
ghost use Rattle.tip_element.specs.Laws.{Exactly};
ghost use Rattle.tip_columns.specs.Sets.{in_set, size};

use tip_element::word::has_bit;

/// A set of columns of a stripe: bit c of the word stands for column c. No kind of element and one word, where a `Trace` is one and
/// two: a type for both would loop over words in each method.
#[derive(Clone, Copy, PartialEq, Eq, Debug)]
pub struct Columns(pub u64);

/// The word with just this bit. That there is one is found by `with`, and asked for on the way here: a type of such columns would be
/// made and read by two steps alone.
fn bit_of(column: usize) -> u64
    requires { column < 64 }
    ensures { result ≡ 2 ^ column }
{
    1 << column
}

/// What is left of a word without its bits up to `last`, for which `within` has found that there are more.
fn above(word: u64, last: usize) -> u64
    requires { last < 63 }
    ensures { result ≡ word / 2 ^ (last + 1) }
{
    word >> (last + 1)
}

/// How many bits of a word are set. A function of its own, so that an edit of the count is refused at its line.
fn ones_of(word: u64) -> u32
    ensures { result ≡ count_ones word }
{
    word.count_ones()
}

impl Columns {
    /// The set with one column more, for which there is a bit.
    #[tactic(auto, using(crate::proofs::Masks::bit_more))]
    fn and(self, column: usize) -> Columns
        requires { column < 64 }
        ensures { (n : ℕ) → in_set result n ≡ (n == column || in_set self n) }
    {
        Columns(self.0 | bit_of(column))
    }

    /// The set with one column more, or nothing where the column is above 63, for which there is no bit.
    pub fn with(self, column: usize) -> Option<Columns>
        ensures { MatchOption result (64 ≤ column) (λ s. (column < 64) × ((n : ℕ) → in_set s n ≡ (n == column || in_set self n))) }
    {
        (column < 64).then(|| self.and(column))
    }

    /// Whether the column is in the set.
    pub fn has(self, column: usize) -> bool
        ensures { result ≡ in_set self column }
    {
        has_bit(self.0, column)
    }

    /// How many columns are in the set.
    pub fn count(self) -> u32
        ensures { result ≡ size self }
    {
        ones_of(self.0)
    }

    /// Whether no column of the set is above `last`.
    pub fn within(self, last: usize) -> bool
        ensures { Exactly result ((c : ℕ) → in_set self c ≡ true → c ≤ last) }
    {
        last >= 63 || above(self.0, last) == 0
    }
}
