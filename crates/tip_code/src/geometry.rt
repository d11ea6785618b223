// The sizes of an array.
ghost use Rattle.std.specs.Prelude.{◌≡◌, ◌<◌, ◌&&◌, true, false, MatchOption, nat_le, slice_index};
ghost use Rattle.tip_code.specs.Primes.{primes, listed};

use super::prime::{PRIMES, Prime};
use super::stop::Stop;

/// The most stripes that an array has.
pub const MOST_STRIPES: usize = 4096;

/// The prime p and the stripe count of an array. Every value is valid: a rank past the table's end counts as its last,
/// and a last stripe past 4,095 as that, so a geometry may stand beside lent buffers and be copied freely.
#[derive(Clone, Copy, PartialEq, Eq, Debug)]
pub struct Geometry {
    rank: u8,
    last: u16,
}

/// The prime of a rank.
fn prime_at(rank: u8) -> Prime
    requires { rank < 10 }
    ensures { result.number ≡ slice_index primes rank }
{
    let number = PRIMES[rank as usize];
    Prime { number }
}

/// Where p stands in the table of primes.
fn rank_of(p: usize) -> Option<u8>
    ensures { MatchOption result (listed p ≡ false) (λ e. (e < 10) × (slice_index primes e ≡ p) × (listed p ≡ true)) }
{
    for rank in 0..10u8 {
        if prime_at(rank).number == p {
            return Some(rank);
        }
    }
    None
}

/// Whether an array may have this number of stripes.
fn in_range(stripes: usize) -> bool
    ensures { result ≡ (nat_le 1 stripes && nat_le stripes 4096) }
{
    (1..=MOST_STRIPES).contains(&stripes)
}

impl Geometry {
    ghost use Rattle.std.specs.Prelude.{◌≡◌, ◌≤◌, IfOk};
    ghost use Rattle.tip_code.specs.Geometry.{prime_of, stripes_of, SizeStop, cells_in, places_in};
    ghost use Rattle.tip_code.specs.Primes.{PrimeFacts};
    ghost use Rattle.tip_code.specs.Stops.{Stopped};

    /// The geometry for this prime and this number of stripes.
    /// Stop 1: p is not one of the ten primes. Stop 2: the stripe count is 0 or above 4,096.
    #[tactic(auto, using(crate::proofs::Sizes::size_prime, crate::proofs::Sizes::size_stripes, crate::proofs::Sizes::size_none))]
    pub fn new(p: usize, stripes: usize) -> Result<Geometry, Stop>
        ensures stop { Stopped (SizeStop p stripes) result }
        ensures value { IfOk result (λ g. (prime_of g ≡ p) × (stripes_of g ≡ stripes)) }
    {
        let Some(rank) = rank_of(p) else {
            return Err(Stop::Prime);
        };
        if !in_range(stripes) {
            return Err(Stop::Stripes);
        }
        Ok(Geometry {
            rank,
            last: (stripes - 1) as u16,
        })
    }

    /// The prime p.
    pub fn prime(self) -> Prime
        ensures value { result.number ≡ prime_of self }
        ensures facts { PrimeFacts result.number }
    {
        prime_at(self.rank.min(9))
    }

    /// How many stripes the array has.
    pub fn stripes(self) -> usize
        ensures value { result ≡ stripes_of self }
        ensures low { 1 ≤ result }
        ensures high { result ≤ 4096 }
    {
        self.last.min(4095) as usize + 1
    }

    /// How many elements a stripe buffer holds: p - 1 rows of p + 1 columns.
    pub fn cells(self) -> usize
        ensures { result ≡ cells_in (prime_of self) }
    {
        let p = self.prime().number;
        (p - 1) * (p + 1)
    }

    /// How many places a stripe has, (p - 1)(p - 2).
    pub fn places(self) -> usize
        ensures { result ≡ places_in (prime_of self) }
    {
        let p = self.prime().number;
        (p - 1) * (p - 2)
    }
}
