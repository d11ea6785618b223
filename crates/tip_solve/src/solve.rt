// Solving as users call it.
ghost use Rattle.std.specs.Prelude.{◌≡◌, ◌*◌, ◌<◌, ◌≤◌, true, false, length, MatchResult};
ghost use Rattle.tip_code.specs.Geometry.{prime_of, cells_in};
ghost use Rattle.tip_code.specs.Stops.{First, Stopped, number};
ghost use Rattle.tip_code.specs.Stripe.{stripe_of};
ghost use Rattle.tip_code.specs.declared.stop.Stop.TheVariants as stop;
ghost use Rattle.tip_algebra.specs.Decided.{Decided};
ghost use Rattle.tip_columns.specs.Sets.{in_set, size};
ghost use Rattle.tip_solve.specs.Solving.{work_in, room_in, SolveStop, Fitting, Solved, WorkAfter};

use super::recover::recover;
use tip_code::geometry::Geometry;
use tip_code::prime::Prime;
use tip_code::stop::Stop;
use tip_code::stripe::Stripe;
use tip_columns::Columns;
use tip_element::element::Element;
use tip_element::slices::clear;

/// How many elements a work buffer has at least, 4(p + 1)(p + 1).
pub fn work_len(geometry: Geometry) -> usize
    ensures { result ≡ work_in (prime_of geometry) }
{
    let p = geometry.prime().number;
    4 * (p + 1) * (p + 1)
}

/// How many of them a stripe buffer leaves, (p + 1)(3p + 5): the room that solving needs.
pub fn room_len(geometry: Geometry) -> usize
    ensures { result ≡ room_in (prime_of geometry) }
{
    let p = geometry.prime().number;
    (p + 1) * (3 * p + 5)
}

/// The first of stops 3, 9 and 12 that fits.
fn fitting(
    geometry: Geometry,
    cells: usize,
    lost: Columns,
    room: usize,
    least: usize,
) -> Result<(), Stop>
    ensures { MatchResult result (λ _. Fitting (prime_of geometry) cells room least lost) (λ s. First (SolveStop (prime_of geometry) cells room least lost) s × (number s < 13)) }
{
    if cells != geometry.cells() {
        return Err(Stop::Length);
    }
    if room < least {
        return Err(Stop::Work);
    }
    if !lost.within(geometry.prime().number) {
        return Err(Stop::Column);
    }
    Ok(())
}

/// Whether so few are lost that they can be solved.
fn is_few(lost: Columns) -> bool
    ensures few { result ≡ true → size lost ≤ 3 }
    ensures many { result ≡ false → 3 < size lost }
{
    lost.count() <= 3
}

/// Solves the lost columns if they are few enough. Stop 13: more than three are lost, and the stripe buffer stays as it was.
fn recover_few<E: Element>(
    prime: Prime,
    cells: &mut [E],
    lost: Columns,
    room: &mut [E],
) -> Result<(), Stop>
    requires { (length cells.old ≡ cells_in prime.number) × (18 * prime.number ≤ length room.old) }
    ensures { MatchResult result (λ _. (size lost ≤ 3) × Solved E.zero E.join prime.number (in_set lost) (stripe_of E.zero prime.number cells.old) (stripe_of E.zero prime.number cells.new)) (λ s. (s ≡ stop.Lost) × (3 < size lost) × (cells.new ≡ cells.old)) }
{
    if !is_few(lost) {
        return Err(Stop::Lost);
    }
    let mut stripe = Stripe { prime, cells };
    recover(lost, &mut stripe, room);
    Ok(())
}

/// Solves the lost columns of a stripe buffer of (p - 1)(p + 1) elements in place, with a work buffer of at least 4(p + 1)(p + 1)
/// elements. Where the kept columns are those of an encoded stripe, the buffer becomes that stripe, and there is only one;
/// otherwise the lost columns may hold anything afterwards. Kept columns never change.
/// Stop 3: the stripe buffer has another length. Stop 9: the work buffer is too short. Stop 12: a lost column is above p.
/// Stop 13: more than three are lost. At a stop the stripe buffer stays as it was.
/// The first 4(p + 1)(p + 1) elements of the work buffer are zero afterwards, at stop 13 too; at an earlier stop it is
/// untouched, and elements beyond them never change.
pub fn solve<E: Element>(
    geometry: Geometry,
    cells: &mut [E],
    lost: Columns,
    work: &mut [E],
) -> Result<(), Stop>
    ensures stop { Stopped (SolveStop (prime_of geometry) (length cells.old) (length work.old) (work_in (prime_of geometry)) lost) result }
    ensures cells { MatchResult result (λ _. Solved E.zero E.join (prime_of geometry) (in_set lost) (stripe_of E.zero (prime_of geometry) cells.old) (stripe_of E.zero (prime_of geometry) cells.new)) (λ _. cells.new ≡ cells.old) }
    ensures work { WorkAfter E.zero (work_in (prime_of geometry)) work.old work.new result }
    ensures decided { Decided E.zero E.join (prime_of geometry) }
{
    let size = work_len(geometry);
    fitting(geometry, cells.len(), lost, work.len(), size)?;
    let used = &mut work[..size];
    let answer = recover_few(geometry.prime(), cells, lost, used);
    clear(used);
    answer
}

/// Solves as `solve` does, with room of its own of at least (p + 1)(3p + 5) elements, what a stripe buffer leaves of a work
/// buffer: a caller may keep the two in one. The room may hold anything afterwards.
/// The stops are those of `solve`, and leave the stripe buffer as it was.
pub fn solve_beside<E: Element>(
    geometry: Geometry,
    cells: &mut [E],
    lost: Columns,
    room: &mut [E],
) -> Result<(), Stop>
    ensures stop { Stopped (SolveStop (prime_of geometry) (length cells.old) (length room.old) (room_in (prime_of geometry)) lost) result }
    ensures cells { MatchResult result (λ _. Solved E.zero E.join (prime_of geometry) (in_set lost) (stripe_of E.zero (prime_of geometry) cells.old) (stripe_of E.zero (prime_of geometry) cells.new)) (λ _. cells.new ≡ cells.old) }
{
    fitting(geometry, cells.len(), lost, room.len(), room_len(geometry))?;
    recover_few(geometry.prime(), cells, lost, room)
}
