// Encoding: from the elements of a stripe's places to all its cells.
ghost use Rattle.std.specs.Prelude.{◌≡◌, ◌&&◌, true, length, get_or, slice_index_or, MatchResult, ◌==◌};
ghost use Rattle.tip_code.specs.Encoding.{Encodes, EncodeStop, OneEncoding};
ghost use Rattle.tip_code.specs.Geometry.{prime_of, cells_in, places_in};
ghost use Rattle.tip_code.specs.Primes.{listed};
ghost use Rattle.tip_code.specs.Joining.{Filled};
ghost use Rattle.tip_code.specs.Stops.{Stopped};
ghost use Rattle.tip_code.specs.Stripe.{stripe_of};

use super::chain::{Chain, Direction, index_of};
use super::geometry::Geometry;
use super::joins::join_lines;
use super::placing::fill_all;
use super::prime::{Prime, at_prime};
use super::stop::Stop;
use tip_element::element::Element;

/// Whether buffers of these lengths are those of a stripe's places and cells.
fn is_sized(geometry: Geometry, values: usize, cells: usize) -> bool
    ensures { result ≡ (values == places_in (prime_of geometry) && cells == cells_in (prime_of geometry)) }
{
    (values == geometry.places()) & (cells == geometry.cells())
}

/// Sets the parities of a direction. Column p is room for the joins, so its own parities are set last.
#[inline(always)]
fn set_parities<const P: usize, E: Element>(direction: Direction, cells: &mut [E])
    requires prime { listed P ≡ true }
    requires sized { length cells.old ≡ cells_in P }
    ensures { Filled E.zero E.join P direction (stripe_of E.zero P cells.old) (stripe_of E.zero P cells.new) }
{
    let prime = Prime::known::<P>();
    let (data, joins) = cells.split_at_mut(P * (P - 1));
    join_lines::<P, E>(direction, data, joins);
    for line in 0..P - 1 {
        let join = cells[P * (P - 1) + line];
        cells[index_of(prime, Chain { direction, line }.parity_cell(prime))] = join;
    }
}

/// Makes the cells the encoding of the values, at the prime P.
fn encode_at<const P: usize, E: Element>(values: &[E], cells: &mut [E])
    requires prime { listed P ≡ true }
    requires full { length values.now ≡ places_in P }
    requires sized { length cells.old ≡ cells_in P }
    ensures { Encodes E.zero E.join P (λ n. slice_index_or values.now n E.zero) (stripe_of E.zero P cells.new) }
{
    fill_all::<P, E>(values, cells);
    set_parities::<P, E>(Direction::Diagonal, cells);
    set_parities::<P, E>(Direction::Antidiagonal, cells);
    set_parities::<P, E>(Direction::Row, cells);
}

/// Makes the cells the encoding of the values.
fn encode_by<E: Element>(prime: Prime, values: &[E], cells: &mut [E])
    requires full { length values.now ≡ places_in prime.number }
    requires sized { length cells.old ≡ cells_in prime.number }
    ensures { Encodes E.zero E.join prime.number (λ n. slice_index_or values.now n E.zero)
        (stripe_of E.zero prime.number cells.new) }
{
    at_prime!(prime, E, encode_at(values, cells))
}

/// Encodes a stripe: takes the elements of the (p - 1)(p - 2) places in their order, and fills a stripe buffer of
/// (p - 1)(p + 1) elements. Every stripe has one encoding, and this is it.
/// Stop 3: either has another length, and nothing is written.
#[tactic(auto, using(crate::proofs::Encodings::one_encoding, crate::proofs::Sizes::valid))]
pub fn encode<E: Element>(geometry: Geometry, values: &[E], cells: &mut [E]) -> Result<(), Stop>
    ensures stop { Stopped (EncodeStop (prime_of geometry) (length values.now) (length cells.old)) result }
    ensures cells { MatchResult result
        (λ _. Encodes E.zero E.join (prime_of geometry) (λ n. get_or values.now n E.zero)
        (stripe_of E.zero (prime_of geometry) cells.new))
        (λ _. cells.new ≡ cells.old) }
    ensures one { OneEncoding E.zero E.join (prime_of geometry) }
{
    if !is_sized(geometry, values.len(), cells.len()) {
        return Err(Stop::Length);
    }
    encode_by(geometry.prime(), values, cells);
    Ok(())
}
