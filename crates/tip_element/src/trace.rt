// Traces: sets of small numbers.
ghost use Rattle.std.specs.Prelude.{◌≡◌, ℕ, ◌+◌, ◌<◌, ◌≤◌, MatchOption, count_ones};
ghost use Rattle.tip_element.specs.Traces.{no_trace, trace_join, trace_laws, has, members, one_of, Just};

use super::element::Element;
use super::word::has_bit;
use std::fmt;

/// A set of numbers from 0 to 127, kept as the bits of two words of 64, a rule of this project: how many numbers it has is how many
/// ones they have. A join keeps each number that is in just one of the two sets.
#[derive(Clone, Copy, PartialEq, Eq, Debug)]
pub struct Trace {
    pub low: u64,
    pub high: u64,
}

impl Element for Trace {
    ghost zero = { no_trace };

    ghost join = { trace_join };

    ghost laws = { trace_laws };

    fn zero() -> Trace {
        Trace { low: 0, high: 0 }
    }

    #[tactic(auto, using(crate::proofs::Sets::has_join))]
    fn join(self, other: Trace) -> Trace
        ensures value { result ≡ trace_join self other }
        ensures either { (n : ℕ) → has result n ≡ one_of (has self n) (has other n) }
    {
        difference(self, other)
    }

    fn is_zero(self) -> bool {
        self.low == 0 && self.high == 0
    }
}

/// The numbers that are in just one of the two sets.
fn difference(a: Trace, b: Trace) -> Trace
    ensures { result ≡ trace_join a b }
{
    Trace {
        low: a.low ^ b.low,
        high: a.high ^ b.high,
    }
}

/// How many bits of the two words are set. A function of its own, so that an edit of the count is refused at its line.
fn ones_of(low: u64, high: u64) -> u32
    ensures { result ≡ count_ones low + count_ones high }
{
    low.count_ones() + high.count_ones()
}

/// The set that holds just this number, which `single` has found small enough: a type of such numbers would be made there and read
/// here alone.
pub(crate) fn just(number: usize) -> Trace
    requires { number < 128 }
    ensures { Just number result }
{
    if number < 64 {
        Trace {
            low: 1 << number,
            high: 0,
        }
    } else {
        Trace {
            low: 0,
            high: 1 << (number - 64),
        }
    }
}

impl Trace {
    /// The set that holds just this number, or nothing where it is above 127.
    pub fn single(number: usize) -> Option<Trace>
        ensures { MatchOption result (128 ≤ number) (λ t. (number < 128) × Just number t) }
    {
        (number < 128).then(|| just(number))
    }

    /// Whether the number is in the set.
    pub fn has(self, number: usize) -> bool
        ensures { result ≡ has self number }
    {
        if number < 64 {
            has_bit(self.low, number)
        } else {
            has_bit(self.high, number - 64)
        }
    }

    /// How many numbers are in the set.
    pub fn count(self) -> u32
        ensures { result ≡ members self }
    {
        ones_of(self.low, self.high)
    }
}

/// The members in ascending order, as {0, 3, 7}.
impl fmt::Display for Trace {
    fn fmt<W: fmt::Write>(&self, f: &mut fmt::Formatter<W>) -> fmt::Result {
        f.write_str("{")?;
        let members = (0..128usize).filter(|number| self.has(*number));
        for (before, number) in members.enumerate() {
            if before > 0 {
                f.write_str(", ")?;
            }
            write!(f, "{number}")?;
        }
        f.write_str("}")
    }
}
