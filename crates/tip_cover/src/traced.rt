// Stripes in which each place holds its own number: lent buffers of traces, and what stands in their parities.
ghost use Rattle.std.specs.Prelude.{◌≡◌, ◌≤◌, length};
ghost use Rattle.tip_code.specs.Geometry.{prime_of, cells_in};

use super::{Finding, check_size, own};
use tip_code::chain::Chain;
use tip_code::geometry::Geometry;
use tip_code::stop::Stop;
use tip_element::element::Element;
use tip_element::trace::Trace;

/// A lent stripe buffer, where a trace can hold the number of every place.
#[derive(Clone, Copy)]
pub(crate) struct Traced<'a> {
    geometry: Geometry,
    cells: &'a [Trace],
    ghost few: { prime_of geometry ≤ 11 },
    ghost sized: { length cells.now ≡ cells_in (prime_of geometry) },
}

impl<'a> Traced<'a> {
    ghost use Rattle.std.specs.Prelude.{◌≡◌, ℕ, ◌-◌, ◌<◌, ◌≤◌, length, IfOk, MatchOption};
    ghost use Rattle.tip_code.specs.Geometry.{prime_of, cells_in};
    ghost use Rattle.tip_code.specs.Places.{Place};
    ghost use Rattle.tip_code.specs.Stops.{Stopped};
    ghost use Rattle.tip_code.specs.Stripe.{covers, stripe_of, parity_column, chains_in};
    ghost use Rattle.tip_cover.specs.Cover.{Cover, Found, Right, Compared, CoverStop};
    ghost use Rattle.tip_element.specs.Laws.{Exactly};
    ghost use Rattle.tip_element.specs.Traces.{no_trace};

    /// The buffer with its geometry. Stop 1: p is above 11. Stop 3: `cells` is not a stripe buffer by its length.
    pub(crate) fn over(geometry: Geometry, cells: &'a [Trace]) -> Result<Traced<'a>, Stop>
        ensures stop { Stopped (CoverStop (prime_of geometry) (length cells.now) (cells_in (prime_of geometry))) result }
        ensures value { IfOk result (λ t. (t.geometry ≡ geometry) × (t.cells.now ≡ cells.now)) }
    {
        check_size(geometry, cells.len(), geometry.cells())?;
        Ok(Traced { geometry, cells })
    }

    /// Whether the parity of the chain covers the place.
    fn covers(&self, chain: Chain, place: usize) -> bool
        ensures { (r c : ℕ) → Place (prime_of self.now.geometry) place r c → result ≡ covers (prime_of self.now.geometry) chain.direction chain.line r c }
    {
        // Copied and moved in: of a closure that holds a reference the proof would learn nothing here.
        let geometry = self.geometry;
        geometry
            .locate(place)
            .is_ok_and(move |cell| geometry.covers(chain, cell))
    }

    /// The places that the chain's parity covers, and how many there are.
    fn covered(&self, chain: Chain) -> (Trace, u32)
        ensures { Cover (prime_of self.now.geometry) chain.direction chain.line result.0 result.1 }
    {
        let mut set = Trace::zero();
        let mut count: u32 = 0;
        // A `for`, which makes both at once: nothing would bound the count that the closure of a `fold` is given.
        for place in 0..self.geometry.places() {
            if self.covers(chain, place) {
                set = set.join(own(place));
                count += 1;
            }
        }
        (set, count)
    }

    /// What the parity cell of a chain holds.
    fn parity(&self, chain: Chain) -> Trace
        requires { chain.line < prime_of self.now.geometry - 1 }
        ensures { result ≡ stripe_of no_trace (prime_of self.now.geometry) self.now.cells.now chain.line (parity_column (prime_of self.now.geometry) chain.direction chain.line) }
    {
        let cell = self.geometry.parity(chain).unwrap();
        self.cells[self.geometry.index(cell).unwrap()]
    }

    /// What the parity of a chain holds, and what it should. There is nothing to find where the stripe has no chain of this
    /// number.
    pub(crate) fn find(&self, number: usize) -> Option<Finding>
        ensures { MatchOption result (chains_in (prime_of self.now.geometry) ≤ number) (λ f. Found (prime_of self.now.geometry) self.now.cells.now number f) }
    {
        let chain = self.geometry.chain(number)?;
        let found = self.parity(chain);
        let (expected, places) = self.covered(chain);
        Some(Finding {
            chain,
            found,
            expected,
            places,
        })
    }

    /// Whether the stripe has a chain of this number, whose parity holds just the places that it covers.
    fn is_right(&self, number: usize) -> bool
        ensures { Exactly result ((number < chains_in (prime_of self.now.geometry)) × Right (prime_of self.now.geometry) self.now.cells.now number) }
    {
        self.find(number).is_some_and(|finding| finding.agrees())
    }

    /// How many parities hold just the places that they cover.
    pub(crate) fn agreed(&self) -> usize
        ensures { Compared (prime_of self.now.geometry) self.now.cells.now (chains_in (prime_of self.now.geometry)) result }
    {
        (0..self.geometry.chains())
            .filter(|number| self.is_right(*number))
            .count()
    }
}
