// Places: the data cells of a stripe by number, from 0 on, row by row, columns ascending. Here is the way from a place to its
// cell; the way back is that of encoding, in `placing.rt`, and promises the same numbering.
ghost use Rattle.std.specs.Prelude.{◌≡◌, ◌+◌, ◌-◌, ◌<◌, ◌≤◌, true, IfOk, nat_lt};
ghost use Rattle.tip_element.specs.Counts.{count_below};
ghost use Rattle.tip_code.specs.Geometry.{prime_of, places_in};
ghost use Rattle.tip_code.specs.Places.{Place, PlaceStop, Numbering};
ghost use Rattle.tip_code.specs.Stops.{Stopped};
ghost use Rattle.tip_code.specs.Stripe.{data_cell};

use super::chain::Cell;
use super::geometry::Geometry;
use super::prime::Prime;
use super::stop::Stop;

/// The number that has k others below it once `hole` is left out.
fn skip(k: usize, hole: usize) -> usize
    requires { k < 32 }
    ensures below { k < hole → result ≡ k }
    ensures above { hole ≤ k → result ≡ k + 1 }
{
    if k < hole { k } else { k + 1 }
}

/// The column of the data cell that has k others to its left: the two parity cells of the row are left out.
fn data_column(prime: Prime, row: usize, k: usize) -> usize
    requires { (row < prime.number - 1) × (k < prime.number - 2) }
    ensures { (data_cell prime.number row result ≡ true) × (count_below result (data_cell prime.number row) ≡ k) }
{
    let p = prime.number;
    let first = (row + 1).min(p - 1 - row);
    let second = (row + 1).max(p - 1 - row);
    skip(skip(k, first), second)
}

/// The cell of a place that the stripe has.
pub(crate) fn place_cell(prime: Prime, place: usize) -> Cell
    requires { place < places_in prime.number }
    ensures { Place prime.number place result.row result.column }
{
    let p = prime.number;
    let row = place / (p - 2);
    let column = data_column(prime, row, place % (p - 2));
    Cell { row, column }
}

/// Whether the stripe has the place.
fn has_place(geometry: Geometry, place: usize) -> bool
    ensures { result ≡ nat_lt place (places_in (prime_of geometry)) }
{
    place < geometry.places()
}

impl Geometry {
    /// The cell of a place; each place is one cell, and each data cell one place.
    /// Stop 11: the place is not below (p - 1)(p - 2).
    #[tactic(auto, using(crate::proofs::Numbers::numbering, crate::proofs::Sizes::valid))]
    pub fn locate(self, place: usize) -> Result<Cell, Stop>
        ensures stop { Stopped (PlaceStop (prime_of self) place) result }
        ensures value { IfOk result (λ c. Place (prime_of self) place c.row c.column) }
        ensures numbering { Numbering (prime_of self) }
    {
        if !has_place(self, place) {
            return Err(Stop::Place);
        }
        Ok(place_cell(self.prime(), place))
    }
}
