//! Encoding, solving and the calls of an array for callers in C, which `bench/` times. A buffer is a pointer to its
//! first element and a length.
#![tactic(auto)]

ghost use Rattle.std.specs.Prelude.{◌≡◌, MatchResult};
ghost use Rattle.tip_code.specs.Stops.{number};

mod array;

use tip_code::encode::encode;
use tip_code::geometry::Geometry;
use tip_code::stop::Stop;
use tip_columns::Columns;
use tip_element::word::Word;
use tip_solve::solve::{solve, solve_beside};

/// The number of a stop, or 0 for a call that was accepted: C has these and no `Result`.
fn status(answer: Result<(), Stop>) -> u8
    ensures { MatchResult answer (λ _. result ≡ 0) (λ s. result ≡ number s) }
{
    match answer {
        Ok(()) => 0,
        Err(stop) => stop.number(),
    }
}

/// Encodes a stripe. Gives the number of the stop, or 0.
#[unsafe(no_mangle)]
pub extern "C" fn tip_encode(p: usize, values: &[Word], cells: &mut [Word]) -> u8 {
    status(Geometry::new(p, 1).and_then(|geometry| encode(geometry, values, cells)))
}

/// Solves the lost columns, as a mask, of a stripe, and clears the work buffer. Gives the number of the stop, or 0.
#[unsafe(no_mangle)]
pub extern "C" fn tip_solve(p: usize, cells: &mut [Word], lost: u64, work: &mut [Word]) -> u8 {
    status(Geometry::new(p, 1).and_then(|geometry| solve(geometry, cells, Columns(lost), work)))
}

/// Solves with room that is not cleared. Gives the number of the stop, or 0.
#[unsafe(no_mangle)]
pub extern "C" fn tip_solve_beside(
    p: usize,
    cells: &mut [Word],
    lost: u64,
    room: &mut [Word],
) -> u8 {
    status(Geometry::new(p, 1).and_then(|geometry| solve_beside(
        geometry,
        cells,
        Columns(lost),
        room,
    )))
}
