// The primes that a stripe may be made for.
ghost use Rattle.std.specs.Prelude.{◌≡◌, ◌+◌, ◌-◌, ◌%◌, ◌<◌, ◌≤◌, true, false, MatchResult};
ghost use Rattle.tip_code.specs.Primes.{listed};
ghost use Rattle.tip_code.specs.declared.stop.Stop.TheVariants as stop;

use super::stop::Stop;
use std::fmt;

/// The ten primes.
pub const PRIMES: [usize; 10] = [3, 5, 7, 11, 13, 17, 19, 23, 29, 31];

/// One of the ten primes.
#[derive(Clone, Copy, PartialEq, Eq, Debug)]
pub struct Prime {
    pub number: usize,
    pub ghost listed: { listed number ≡ true },
    pub ghost low: { 3 ≤ number },
    pub ghost high: { number ≤ 31 },
}

impl Prime {
    /// The number as a prime. Stop 1: it is not one of the ten. The promise of a `TryFrom` would stand in a definition of `specs/`, and not
    /// here.
    pub fn new(number: usize) -> Result<Prime, Stop>
        ensures { MatchResult result (λ p. p.number ≡ number) (λ s. (s ≡ stop.Prime) × (listed number ≡ false)) }
    {
        if PRIMES.contains(&number) {
            Ok(Prime { number })
        } else {
            Err(Stop::Prime)
        }
    }

    /// The prime P, for code in which it is a constant.
    #[inline(always)]
    pub(crate) fn known<const P: usize>() -> Prime
        requires { listed P ≡ true }
        ensures { result.number ≡ P }
    {
        Prime { number: P }
    }

    /// The number once round: less p where it is not below p. Of a number below 2p that is the remainder mod p.
    pub fn wrapped(self, number: usize) -> usize
        ensures low { number < self.number → result ≡ number }
        ensures high { self.number ≤ number → result ≡ number - self.number }
        ensures value { number < self.number + self.number → result ≡ number % self.number }
        ensures within { number < self.number + self.number → result < self.number }
    {
        let p = self.number;
        if number < p { number } else { number - p }
    }
}

impl fmt::Display for Prime {
    fn fmt<W: fmt::Write>(&self, f: &mut fmt::Formatter<W>) -> fmt::Result {
        write!(f, "{}", self.number)
    }
}

/// Calls a function with the prime as a constant. A `Prime` has no other number than these: with one left out the last
/// arm has no proof.
macro_rules! at_prime {
    ($prime:expr, $e:ident, $f:ident($($argument:expr),*)) => {
        match $prime.number {
            3 => $f::<3, $e>($($argument),*),
            5 => $f::<5, $e>($($argument),*),
            7 => $f::<7, $e>($($argument),*),
            11 => $f::<11, $e>($($argument),*),
            13 => $f::<13, $e>($($argument),*),
            17 => $f::<17, $e>($($argument),*),
            19 => $f::<19, $e>($($argument),*),
            23 => $f::<23, $e>($($argument),*),
            29 => $f::<29, $e>($($argument),*),
            _ => $f::<31, $e>($($argument),*),
        }
    };
}

pub(crate) use at_prime;
