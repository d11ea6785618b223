// The joins of lines and chains, for encoding and for solving. The prime stands in the code as a number, and so does
// each line but those of many rows and single ones: so the compiler knows which cells hold data and where they stand,
// and what is left is a load and a join for each.
ghost use Rattle.std.specs.Prelude.{◌≡◌, ℕ, ◌+◌, ◌-◌, ◌*◌, ◌<◌, ◌≤◌, true, length, slice_index_or};
ghost use Rattle.tip_code.specs.Encoding.{line_join, chain_join};
ghost use Rattle.tip_code.specs.Geometry.{cells_in};
ghost use Rattle.tip_code.specs.Primes.{listed};
ghost use Rattle.tip_code.specs.Joining.{joined_to, LinesJoined, row_to, WholeRows, ranked};
ghost use Rattle.tip_code.specs.Stripe.{stripe_of};
ghost use Rattle.tip_code.specs.declared.chain.Direction.TheVariants.{Row};

use super::chain::{Cell, Chain, Direction, index_of, is_data};
use super::prime::{Prime, at_prime};
use tip_element::element::Element;

/// What is joined of a line before column `from`, with the data cells of the next eight columns. Eight, so that the
/// compiler unrolls the loop.
#[tactic(auto, using(crate::proofs::Cells::data_facts))]
#[inline(always)]
fn join_eight<E: Element>(prime: Prime, chain: Chain, from: usize, before: E, cells: &[E]) -> E
    requires line { chain.line < prime.number - 1 }
    requires sized { prime.number * (prime.number - 1) ≤ length cells.now }
    requires from { from < 32 }
    requires before { before ≡ joined_to E.zero E.join prime.number (stripe_of E.zero prime.number cells.now)
        chain.direction chain.line from }
    ensures { result ≡ joined_to E.zero E.join prime.number (stripe_of E.zero prime.number cells.now)
        chain.direction chain.line (from + 8) }
{
    let p = prime.number;
    let mut all = before;
    for column in from.min(p)..(from + 8).min(p) {
        let cell = chain.crossing(prime, column);
        if is_data(prime, cell) {
            all = all.join(cells[index_of(prime, cell)]);
        }
    }
    all
}

/// The join of the data cells of a line.
#[inline(always)]
fn line_at<const P: usize, E: Element>(chain: Chain, cells: &[E]) -> E
    requires prime { listed P ≡ true }
    requires line { chain.line < P - 1 }
    requires sized { P * (P - 1) ≤ length cells.now }
    ensures { result ≡ line_join E.zero E.join P (stripe_of E.zero P cells.now) chain.direction chain.line }
{
    let prime = Prime::known::<P>();
    let all = join_eight(prime, chain, 0, E::zero(), cells);
    let all = join_eight(prime, chain, 8, all, cells);
    let all = join_eight(prime, chain, 16, all, cells);
    join_eight(prime, chain, 24, all, cells)
}

/// The join of the data cells of a line.
pub(crate) fn line_by<E: Element>(prime: Prime, chain: Chain, cells: &[E]) -> E
    requires line { chain.line < prime.number - 1 }
    requires sized { prime.number * (prime.number - 1) ≤ length cells.now }
    ensures { result
        ≡ line_join E.zero E.join prime.number (stripe_of E.zero prime.number cells.now) chain.direction chain.line }
{
    at_prime!(prime, E, line_at(chain, cells))
}

/// Puts the join of a line in its order among the joins, where the stripe has that line.
#[inline(always)]
fn join_line<const P: usize, const LINE: usize, E: Element>(
    direction: Direction,
    cells: &[E],
    joins: &mut [E],
)
    requires prime { listed P ≡ true }
    requires sized { P * (P - 1) ≤ length cells.now }
    requires room { length joins.old ≡ P - 1 }
    ensures { LinesJoined E.zero E.join P (stripe_of E.zero P cells.now) direction LINE joins.old
        → LinesJoined E.zero E.join P (stripe_of E.zero P cells.now) direction (LINE + 1) joins.new }
{
    if LINE < P - 1 {
        let chain = Chain {
            direction,
            line: LINE,
        };
        joins[chain.line] = line_at::<P, E>(chain, cells);
    }
}

macro_rules! join_each {
    ($p:ident, $e:ident, $direction:ident, $cells:ident, $joins:ident, $($line:literal)*) => {
        $( join_line::<$p, $line, $e>($direction, $cells, $joins); )*
    };
}

/// The direction of a rank.
#[inline(always)]
fn ranked(rank: usize) -> Direction
    ensures { result ≡ ranked rank }
{
    match rank {
        0 => Direction::Row,
        1 => Direction::Diagonal,
        _ => Direction::Antidiagonal,
    }
}

/// The joins of all lines of the direction of this rank, each line by itself.
fn join_direction<const P: usize, const RANK: usize, E: Element>(cells: &[E], joins: &mut [E])
    requires prime { listed P ≡ true }
    requires sized { P * (P - 1) ≤ length cells.now }
    requires room { length joins.old ≡ P - 1 }
    ensures { LinesJoined E.zero E.join P (stripe_of E.zero P cells.now) (ranked RANK) (P - 1) joins.new }
{
    let direction = ranked(RANK);
    join_each!(P, E, direction, cells, joins, 0 1 2 3 4 5 6 7 8 9 10 11 12 13 14 15 16 17 18 19 20 21 22 23 24 25 26 27
        28 29);
}

/// The element of a cell below column p.
#[inline(always)]
fn element_of<E: Element>(prime: Prime, row: usize, column: usize, cells: &[E]) -> E
    requires cell { (row < prime.number - 1) × (column < prime.number) }
    requires sized { prime.number * (prime.number - 1) ≤ length cells.now }
    ensures { result ≡ stripe_of E.zero prime.number cells.now row column }
{
    cells[index_of(prime, Cell { row, column })]
}

/// What is joined of a row before column `from`, with the cells of the next eight columns, parities too.
#[inline(always)]
fn row_eight<E: Element>(prime: Prime, row: usize, from: usize, before: E, cells: &[E]) -> E
    requires row { row < prime.number - 1 }
    requires sized { prime.number * (prime.number - 1) ≤ length cells.now }
    requires from { from < 32 }
    requires before { before ≡ row_to E.zero E.join prime.number (stripe_of E.zero prime.number cells.now) row from }
    ensures { result ≡ row_to E.zero E.join prime.number (stripe_of E.zero prime.number cells.now) row (from + 8) }
{
    let p = prime.number;
    let mut all = before;
    for column in from.min(p)..(from + 8).min(p) {
        all = all.join(element_of(prime, row, column, cells));
    }
    all
}

/// The joins of all rows, with the parities that they cross. Each row takes the same steps, so the compiler takes
/// several at a time.
#[inline(always)]
fn join_whole_rows<E: Element>(prime: Prime, cells: &[E], joins: &mut [E])
    requires sized { prime.number * (prime.number - 1) ≤ length cells.now }
    requires room { length joins.old ≡ prime.number - 1 }
    ensures { WholeRows E.zero E.join prime.number (stripe_of E.zero prime.number cells.now) joins.new }
{
    for row in 0..prime.number - 1 {
        let all = row_eight(prime, row, 0, E::zero(), cells);
        let all = row_eight(prime, row, 8, all, cells);
        let all = row_eight(prime, row, 16, all, cells);
        let all = row_eight(prime, row, 24, all, cells);
        joins[row] = all;
    }
}

/// Leaves the parities that each row crosses out of its join again, by joining them once more.
#[inline(always)]
fn leave_parities<E: Element>(prime: Prime, cells: &[E], joins: &mut [E])
    requires sized { prime.number * (prime.number - 1) ≤ length cells.now }
    requires room { length joins.old ≡ prime.number - 1 }
    requires whole { WholeRows E.zero E.join prime.number (stripe_of E.zero prime.number cells.now) joins.old }
    ensures { LinesJoined E.zero E.join prime.number (stripe_of E.zero prime.number cells.now) Row (prime.number - 1)
        joins.new }
{
    let p = prime.number;
    for row in 0..p - 1 {
        let diagonal = element_of(prime, row, row + 1, cells);
        let antidiagonal = element_of(prime, row, p - 1 - row, cells);
        joins[row] = joins[row].join(diagonal).join(antidiagonal);
    }
}

/// The joins of all lines of a direction, in the order of the lines. It has no mark for inlining: where it is large,
/// all callers share one copy for each prime. Rows are joined together where there are many, which takes less code and
/// time.
pub(crate) fn join_lines<const P: usize, E: Element>(
    direction: Direction,
    cells: &[E],
    joins: &mut [E],
)
    requires prime { listed P ≡ true }
    requires sized { P * (P - 1) ≤ length cells.now }
    requires room { length joins.old ≡ P - 1 }
    ensures { LinesJoined E.zero E.join P (stripe_of E.zero P cells.now) direction (P - 1) joins.new }
{
    match direction {
        Direction::Row if P > 13 => {
            let prime = Prime::known::<P>();
            join_whole_rows(prime, cells, joins);
            leave_parities(prime, cells, joins);
        }
        Direction::Row => join_direction::<P, 0, E>(cells, joins),
        Direction::Diagonal => join_direction::<P, 1, E>(cells, joins),
        Direction::Antidiagonal => join_direction::<P, 2, E>(cells, joins),
    }
}

/// The joins of all chains of a direction: those of the lines with their parities joined in.
fn join_chains<const P: usize, E: Element>(direction: Direction, cells: &[E], joins: &mut [E])
    requires prime { listed P ≡ true }
    requires sized { length cells.now ≡ cells_in P }
    requires room { length joins.old ≡ P - 1 }
    ensures { (i : ℕ) → i < P - 1
        → slice_index_or joins.new i E.zero ≡ chain_join E.zero E.join P (stripe_of E.zero P cells.now) direction i }
{
    let prime = Prime::known::<P>();
    join_lines::<P, E>(direction, cells, joins);
    for line in 0..P - 1 {
        let parity = cells[index_of(prime, Chain { direction, line }.parity_cell(prime))];
        joins[line] = parity.join(joins[line]);
    }
}

/// The joins of all chains of a direction, in the order of their lines.
pub(crate) fn chains_by<E: Element>(
    prime: Prime,
    direction: Direction,
    cells: &[E],
    joins: &mut [E],
)
    requires sized { length cells.now ≡ cells_in prime.number }
    requires room { length joins.old ≡ prime.number - 1 }
    ensures { (i : ℕ) → i < prime.number - 1 → slice_index_or joins.new i E.zero
        ≡ chain_join E.zero E.join prime.number (stripe_of E.zero prime.number cells.now) direction i }
{
    at_prime!(prime, E, join_chains(direction, cells, joins))
}
