//! Checks the encoding against the rules of the stripe: where each place holds its own number as a trace, each parity, a join
//! of traces, has to hold just the places that it covers.
#![tactic(auto)]

ghost use Rattle.std.specs.Prelude.{◌≡◌, ◌<◌, ◌≤◌, length, IfOk, MatchOption, MatchResult, nat_le};
ghost use Rattle.tip_code.specs.Geometry.{prime_of, cells_in, places_in};
ghost use Rattle.tip_code.specs.Stops.{Stopped};
ghost use Rattle.tip_code.specs.Stripe.{chains_in};
ghost use Rattle.tip_cover.specs.Cover.{Own, Found, Compared, CoverStop};
ghost use Rattle.tip_element.specs.Laws.{Exactly};
ghost use Rattle.tip_element.specs.Traces.{members, Just, Alike};

mod traced;

use std::fmt;
use tip_code::chain::Chain;
use tip_code::geometry::Geometry;
use tip_code::stop::Stop;
use tip_element::trace::Trace;
use traced::Traced;

/// The largest p whose places all have numbers that a trace can hold.
pub const LARGEST_TRACED: usize = 11;

/// What a parity holds, and what it should hold.
#[derive(Clone, Copy, Debug)]
pub struct Finding {
    pub chain: Chain,
    /// The set that the parity cell holds.
    pub found: Trace,
    /// The places that the parity covers by the rules of the stripe.
    pub expected: Trace,
    /// How many places that is.
    pub places: u32,
}

/// How many parities were compared, and how many of them hold what they should.
#[derive(Clone, Copy, PartialEq, Eq, Debug)]
pub struct Tally {
    pub compared: usize,
    pub agreed: usize,
}

impl Finding {
    /// Whether the parity holds what it should, by its members and by their count.
    pub fn agrees(self) -> bool
        ensures { Exactly result (Alike self.found self.expected × (members self.found ≡ self.places)) }
    {
        self.found == self.expected && self.found.count() == self.places
    }
}

/// The chain, what was found and what was expected.
impl fmt::Display for Finding {
    fn fmt<W: fmt::Write>(&self, f: &mut fmt::Formatter<W>) -> fmt::Result {
        let count = self.found.count();
        write!(f, "{}: found {} ({count}), ", self.chain, self.found)?;
        write!(f, "expected {} ({})", self.expected, self.places)
    }
}

/// Whether a trace can hold the number of every place.
fn is_traced(geometry: Geometry) -> bool
    ensures { result ≡ nat_le (prime_of geometry) 11 }
{
    geometry.prime().number <= LARGEST_TRACED
}

/// Refuses a buffer where a trace cannot hold the number of every place, or of another length than is needed.
fn check_size(geometry: Geometry, held: usize, needed: usize) -> Result<(), Stop>
    ensures stop { Stopped (CoverStop (prime_of geometry) held needed) result }
    ensures fits { IfOk result (λ _. (prime_of geometry ≤ 11) × (held ≡ needed)) }
{
    if !is_traced(geometry) {
        return Err(Stop::Prime);
    }
    if held != needed {
        return Err(Stop::Length);
    }
    Ok(())
}

/// The set of one place's number. Places are plain numbers of loops, so that they are small enough is said in a clause.
fn own(place: usize) -> Trace
    requires { place < 128 }
    ensures { Just place result }
{
    Trace::single(place).unwrap()
}

/// Lets each place hold its own number, as a trace. Stop 1: p is above 11. Stop 3: `values` has another length than the
/// number of places. Nothing is written then.
pub fn own_numbers(geometry: Geometry, values: &mut [Trace]) -> Result<(), Stop>
    ensures stop { Stopped (CoverStop (prime_of geometry) (length values.old) (places_in (prime_of geometry))) result }
    ensures values { MatchResult result (λ _. Own (prime_of geometry) values.new) (λ _. values.new ≡ values.old) }
{
    check_size(geometry, values.len(), geometry.places())?;
    for (place, value) in values.iter_mut().enumerate() {
        *value = own(place);
    }
    Ok(())
}

/// Looks at one chain of a stripe in which each place holds its own number: what its parity holds, and what it should.
/// There is nothing to find where the stripe has no chain of this number. Stop 1: p is above 11. Stop 3: `cells` is not a
/// stripe buffer by its length.
pub fn inspect(geometry: Geometry, cells: &[Trace], number: usize) -> Result<Option<Finding>, Stop>
    ensures stop { Stopped (CoverStop (prime_of geometry) (length cells.now) (cells_in (prime_of geometry))) result }
    ensures value { IfOk result (λ o. MatchOption o (chains_in (prime_of geometry) ≤ number) (λ f. Found (prime_of geometry) cells.now number f)) }
{
    let traced = Traced::over(geometry, cells)?;
    Ok(traced.find(number))
}

/// Compares every parity of a stripe in which each place holds its own number with the places that it covers.
/// Stop 1: p is above 11. Stop 3: `cells` is not a stripe buffer by its length.
pub fn compare(geometry: Geometry, cells: &[Trace]) -> Result<Tally, Stop>
    ensures stop { Stopped (CoverStop (prime_of geometry) (length cells.now) (cells_in (prime_of geometry))) result }
    ensures value { IfOk result (λ t. Compared (prime_of geometry) cells.now t.compared t.agreed) }
{
    let traced = Traced::over(geometry, cells)?;
    Ok(Tally {
        compared: geometry.chains(),
        agreed: traced.agreed(),
    })
}
