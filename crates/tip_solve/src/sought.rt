// The columns below p that are lost.
ghost use Rattle.std.specs.Prelude.{◌≡◌, ℕ, ◌<◌, ◌≤◌, true, false, MatchOption};
ghost use Rattle.tip_columns.specs.Sets.{in_set};

use tip_code::prime::Prime;
use tip_columns::Columns;

/// Two columns, in ascending order. That they are below p is said in clauses: with a prime of its own a pair would
/// have to be matched with the stripe and the sums that it goes with.
#[derive(Clone, Copy)]
pub(crate) struct Pair {
    pub first: usize,
    pub last: usize,
    pub ghost ordered: { first < last },
}

/// Three columns, in ascending order.
#[derive(Clone, Copy)]
pub(crate) struct Triple {
    pub first: usize,
    pub middle: usize,
    pub last: usize,
    pub ghost ordered: { first < middle },
    pub ghost ascending: { middle < last },
}

/// At most three columns.
#[derive(Clone, Copy)]
pub(crate) enum Sought {
    Nothing,
    One(usize),
    Two(Pair),
    Three(Triple),
}

/// The first lost column from `from` on that is below p.
fn next_lost(lost: Columns, from: usize, prime: Prime) -> Option<usize>
    requires { from < 64 }
    ensures { MatchOption result ((c : ℕ) → from ≤ c → c < prime.number → in_set lost c ≡ false)
        (λ k. (from ≤ k) × (k < prime.number) × (in_set lost k ≡ true)
        × ((c : ℕ) → from ≤ c → c < k → in_set lost c ≡ false)) }
{
    let rest = lost.0 >> from;
    if rest == 0 {
        return None;
    }
    let column = from + rest.trailing_zeros() as usize;
    if column >= prime.number {
        return None;
    }
    Some(column)
}

impl Sought {
    ghost use Rattle.std.specs.Prelude.{◌≤◌};
    ghost use Rattle.tip_columns.specs.Sets.{size};
    ghost use Rattle.tip_solve.specs.Seeking.{Seeks};

    /// The lost columns below p, where at most three are lost.
    #[inline(never)]
    pub(crate) fn of(prime: Prime, lost: Columns) -> Sought
        requires { size lost ≤ 3 }
        ensures { Seeks prime.number lost result }
    {
        let Some(first) = next_lost(lost, 0, prime) else {
            return Sought::Nothing;
        };
        let Some(second) = next_lost(lost, first + 1, prime) else {
            return Sought::One(first);
        };
        match next_lost(lost, second + 1, prime) {
            None => Sought::Two(Pair {
                first,
                last: second,
            }),
            Some(last) => Sought::Three(Triple {
                first,
                middle: second,
                last,
            }),
        }
    }
}
