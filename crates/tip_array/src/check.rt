// Checking a stripe.
ghost use Rattle.std.specs.Prelude.{◌≡◌, ◌≢◌, ◌+◌, ◌-◌, ◌*◌, ◌<◌, ◌≤◌, ℕ, ◌&&◌, ◌||◌, ◌==◌, true, false, IfErr};
ghost use Rattle.tip_element.specs.Laws.{Exactly};
ghost use Rattle.tip_element.specs.Traces.{has};
ghost use Rattle.tip_code.specs.Encoding.{datum, line_join};
ghost use Rattle.tip_code.specs.Geometry.{prime_of};
ghost use Rattle.tip_code.specs.Stripe.{crossing, chains_in};
ghost use Rattle.tip_array.specs.Stripes.{element_at, chain_join_at, Whole};
ghost use Rattle.tip_code.specs.Stops.{number};
ghost use Rattle.tip_array.specs.Steps.{CheckStep, Chains, Fails};
ghost use Rattle.tip_array.specs.Keeping.{OnlyReads};
ghost use Rattle.tip_array.specs.Checking.{Collected, Judged, Marks, Marked, AreOut, ClearOf};

use crate::array::Array;
use crate::calls::Checks;
use tip_code::chain::Chain;
use tip_code::geometry::Geometry;
use tip_code::stop::Stop;
use tip_columns::Columns;
use tip_element::element::Element;
use tip_element::trace::Trace;
use tip_gather::columns::columns_out;
use tip_shelf::shelf::{Out, Shelf};

/// The element of the data cell that a chain has in a column, or zero where it has none. Out: its strip is out.
fn datum<S: Shelf>(
    shelf: &mut S,
    stripe: usize,
    chain: Chain,
    column: usize,
) -> Result<S::Element, Out>
    requires there { stripe < (S.meaning shelf.old).stripes }
    requires line { chain.line < (S.meaning shelf.old).prime - 1 }
    requires column { column < (S.meaning shelf.old).prime }
    ensures collected { Collected (S.meaning shelf.old) (S.meaning shelf.new) stripe chain.direction chain.line
        (datum S.Element.zero (S.meaning shelf.new).prime (element_at S.Element.zero (S.meaning shelf.new) stripe)
        (crossing (S.meaning shelf.new).prime chain.direction chain.line column) column)
        result }
    ensures lent { S.lent shelf.new ≡ S.lent shelf.old }
{
    match shelf.geometry().covered(chain, column) {
        Some(cell) => shelf.get(stripe, cell.column, cell.row),
        None => Ok(S::Element::zero()),
    }
}

/// The join of the data cells of a chain. Out: a strip of the chain is out.
fn line_join<S: Shelf>(shelf: &mut S, stripe: usize, chain: Chain) -> Result<S::Element, Out>
    requires there { stripe < (S.meaning shelf.old).stripes }
    requires line { chain.line < (S.meaning shelf.old).prime - 1 }
    ensures collected { Collected (S.meaning shelf.old) (S.meaning shelf.new) stripe chain.direction chain.line
        (line_join S.Element.zero S.Element.join (S.meaning shelf.new).prime
        (element_at S.Element.zero (S.meaning shelf.new) stripe) chain.direction chain.line)
        result }
    ensures lent { S.lent shelf.new ≡ S.lent shelf.old }
{
    let mut all = S::Element::zero();
    for column in 0..shelf.geometry().prime().number {
        all = all.join(datum(shelf, stripe, chain, column)?);
    }
    Ok(all)
}

/// The join of the cells of a chain. Out: a strip of the chain is out.
fn chain_join<S: Shelf>(shelf: &mut S, stripe: usize, chain: Chain) -> Result<S::Element, Out>
    requires there { stripe < (S.meaning shelf.old).stripes }
    requires line { chain.line < (S.meaning shelf.old).prime - 1 }
    ensures collected { Collected (S.meaning shelf.old) (S.meaning shelf.new) stripe chain.direction chain.line
        (chain_join_at S.Element.zero S.Element.join (S.meaning shelf.new) stripe chain.direction chain.line) result }
    ensures lent { S.lent shelf.new ≡ S.lent shelf.old }
{
    let Some(cell) = shelf.geometry().parity(chain) else {
        return Err(Out);
    };
    let parity = shelf.get(stripe, cell.column, cell.row)?;
    let line = line_join(shelf, stripe, chain)?;
    Ok(parity.join(line))
}

/// Whether a chain was read whole and does not join to zero.
fn fails<S: Shelf>(shelf: &mut S, stripe: usize, chain: Chain) -> bool
    requires there { stripe < (S.meaning shelf.old).stripes }
    requires line { chain.line < (S.meaning shelf.old).prime - 1 }
    ensures judged { Judged S.Element.zero S.Element.join (S.meaning shelf.old) (S.meaning shelf.new)
        stripe chain.direction chain.line result }
    ensures lent { S.lent shelf.new ≡ S.lent shelf.old }
{
    match chain_join(shelf, stripe, chain) {
        Ok(join) => !join.is_zero(),
        Err(_) => false,
    }
}

/// The set with a number that it lacks.
fn with_number(set: Trace, number: usize) -> Trace
    requires small { number < 128 }
    requires new { has set number ≡ false }
    ensures { (n : ℕ) → has result n ≡ (n == number || has set n) }
{
    match Trace::single(number) {
        Some(one) => set.join(one),
        None => set,
    }
}

/// The numbers of the chains that were read whole and do not join to zero. A strip may drop while others are read, also
/// one whose chains were read already.
fn failing_chains<S: Shelf>(shelf: &mut S, stripe: usize) -> Trace
    requires { stripe < (S.meaning shelf.old).stripes }
    ensures marked { Marked S.Element.zero S.Element.join (S.meaning shelf.old) (S.meaning shelf.new)
        stripe (chains_in (S.meaning shelf.old).prime) result }
    ensures lent { S.lent shelf.new ≡ S.lent shelf.old }
{
    let geometry = shelf.geometry();
    let chains = geometry.chains();
    let mut failing = Trace::zero();
    for number in 0..chains {
        let Some(chain) = geometry.chain(number) else {
            return failing;
        };
        if fails(shelf, stripe, chain) {
            failing = with_number(failing, number);
        }
    }
    failing
}

/// Whether a chain has no cell in a column of a set.
fn is_clear(geometry: Geometry, chain: Chain, set: Columns) -> bool
    requires { chain.line < prime_of geometry - 1 }
    ensures { Exactly result (ClearOf (prime_of geometry) chain.direction chain.line set) }
{
    let Some(parity) = geometry.parity(chain) else {
        return false;
    };
    if set.has(parity.column) {
        return false;
    }
    for column in 0..geometry.prime().number {
        if set.has(column) && geometry.covered(chain, column).is_some() {
            return false;
        }
    }
    true
}

/// Counts the chains that lie wholly in held strips, and those of them that are marked as failing.
fn count_chains<S: Shelf>(shelf: &S, stripe: usize, out: Columns, failing: Trace) -> Checks
    requires out { AreOut (S.meaning shelf.now) stripe out }
    requires marks { Marks S.Element.zero S.Element.join (S.meaning shelf.now) stripe
        (chains_in (S.meaning shelf.now).prime) failing }
    ensures whole { Chains (S.meaning shelf.now) (Whole (S.meaning shelf.now) stripe) result.whole }
    ensures failing { Chains (S.meaning shelf.now) (Fails S.Element.zero S.Element.join (S.meaning shelf.now) stripe)
        result.failing }
{
    let geometry = shelf.geometry();
    let mut counts = Checks {
        whole: 0,
        failing: 0,
    };
    for number in 0..geometry.chains() {
        let Some(chain) = geometry.chain(number) else {
            return counts;
        };
        if is_clear(geometry, chain, out) {
            counts.whole += 1;
            if failing.has(number) {
                counts.failing += 1;
            }
        }
    }
    counts
}

impl<S: Shelf> Array<S> {
    /// Counts the chains of a stripe that lie wholly in strips that are held at the end, and those of them that do not
    /// join to zero. A chain is a parity cell with the data cells that it covers.
    ///
    /// Stop 10: the stripe is not below the stripe count. Then nothing changes.
    ///
    /// No strip changes but by dropping, and on a steady shelf none does. A check has no work buffer.
    pub fn check(&mut self, stripe: usize) -> Result<Checks, Stop>
        ensures step { CheckStep S.Element.zero S.Element.join (S.meaning self.old.shelf) (S.meaning self.new.shelf) stripe
            result }
        ensures keeps { OnlyReads (S.meaning self.old.shelf) (S.meaning self.new.shelf) }
        ensures early { IfErr result (λ s. number s < 13 → self.new.shelf ≡ self.old.shelf) }
        ensures lent { S.lent self.new.shelf ≡ S.lent self.old.shelf }
    {
        if stripe >= self.shelf.geometry().stripes() {
            return Err(Stop::Stripe);
        }
        let failing = failing_chains(&mut self.shelf, stripe);
        // What is out is asked last, since reading may have lost strips.
        let out = columns_out(&mut self.shelf, stripe);
        Ok(count_chains(&self.shelf, stripe, out, failing))
    }
}
