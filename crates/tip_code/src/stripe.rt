// Stripe buffers, lent with the prime that they belong to.
ghost use Rattle.std.specs.Prelude.{◌≡◌, length};
ghost use Rattle.tip_code.specs.Geometry.{cells_in};

use super::chain::{Chain, Direction, index_of};
use super::joins::{chains_by, line_by};
use super::prime::Prime;
use super::stop::Stop;
use tip_element::element::Element;

/// A lent stripe buffer of (p - 1)(p + 1) elements, column after column.
#[derive(Drop)]
pub struct Stripe<'a, E> {
    pub prime: Prime,
    pub cells: &'a mut [E],
    pub ghost sized: { length cells.now ≡ cells_in prime.number },
}

impl<E: Element> Stripe<'_, E> {
    ghost use Rattle.std.specs.Prelude.{◌≡◌, ℕ, ◌-◌, ◌<◌, ◌≤◌, ◌≢◌, MatchOption, MatchResult, length, slice_index_or};
    ghost use Rattle.tip_code.specs.Buffer.{cells_of};
    ghost use Rattle.tip_code.specs.Encoding.{chain_join};
    ghost use Rattle.tip_code.specs.declared.stop.Stop.TheVariants as stop;

    /// The join of all cells of a chain: zero where its parity is right. Nothing where the stripe has no such chain.
    pub fn chain_join(&self, chain: Chain) -> Option<E>
        ensures { MatchOption result
            (self.now.prime.number - 1 ≤ chain.line)
            (λ e. (chain.line < self.now.prime.number - 1)
            × (e ≡ chain_join E.zero E.join self.now.prime.number
            (cells_of E.zero self.now) chain.direction chain.line)) }
    {
        if chain.line >= self.prime.number - 1 {
            return None;
        }
        let parity = self.cells[index_of(self.prime, chain.parity_cell(self.prime))];
        Some(parity.join(line_by(self.prime, chain, self.cells)))
    }

    /// The joins of all chains of a direction, each as `chain_join` gives it, in a run of p - 1 elements.
    /// Stop 3: the run has another length, and nothing is written.
    pub fn chain_joins(&self, direction: Direction, joins: &mut [E]) -> Result<(), Stop>
        ensures stop { MatchResult result (λ _. length joins.old ≡ self.now.prime.number - 1)
            (λ s. (s ≡ stop.Length) × (length joins.old ≢ self.now.prime.number - 1)) }
        ensures joins { MatchResult result
            (λ _. (i : ℕ) → i < self.now.prime.number - 1 → slice_index_or joins.new i E.zero
            ≡ chain_join E.zero E.join self.now.prime.number (cells_of E.zero self.now) direction i)
            (λ _. joins.new ≡ joins.old) }
    {
        if joins.len() != self.prime.number - 1 {
            return Err(Stop::Length);
        }
        chains_by(self.prime, direction, self.cells, joins);
        Ok(())
    }
}
