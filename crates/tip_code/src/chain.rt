// The cells of a stripe, the lines through them and the chains.
ghost use Rattle.std.specs.Prelude.{◌≡◌, ℕ, ◌+◌, ◌-◌, ◌*◌, ◌<◌, ◌≤◌, true, false, not, ◌&&◌, MatchOption, ◌==◌};
ghost use Rattle.tip_code.specs.Geometry.{prime_of};
ghost use Rattle.tip_code.specs.Stripe.{parity_cell, parity_column, data_cell, line_of, crossing, covers, cell_index, Stands, Lines, chains_in, Numbered, Concerned};

use super::geometry::Geometry;
use super::prime::Prime;
use std::fmt;

/// A cell of a stripe: its row, from 0 to p - 2, and its column, from 0 to p. Callers may write any numbers, so what is below p is
/// said where it matters, and not here; it is said alike of single columns and lines, which are plain numbers of loops.
#[derive(Clone, Copy, PartialEq, Eq, Debug)]
pub struct Cell {
    pub row: usize,
    pub column: usize,
}

/// The three directions in which cells are joined into parities.
#[derive(Clone, Copy, PartialEq, Eq, Debug)]
pub enum Direction {
    Row,
    Diagonal,
    Antidiagonal,
}

/// A chain: the parity cell of a line, with the data cells on the line, which it covers.
#[derive(Clone, Copy, PartialEq, Eq, Debug)]
pub struct Chain {
    pub direction: Direction,
    pub line: usize,
}

/// The parity cells of the three lines through a data cell.
#[derive(Clone, Copy, PartialEq, Eq, Debug)]
pub struct Parities {
    pub row: Cell,
    pub diagonal: Cell,
    pub antidiagonal: Cell,
}

impl fmt::Display for Direction {
    fn fmt<W: fmt::Write>(&self, f: &mut fmt::Formatter<W>) -> fmt::Result {
        f.write_str(match self {
            Direction::Row => "row",
            Direction::Diagonal => "diagonal",
            Direction::Antidiagonal => "antidiagonal",
        })
    }
}

/// The direction and the number of the line, as diagonal 3.
impl fmt::Display for Chain {
    fn fmt<W: fmt::Write>(&self, f: &mut fmt::Formatter<W>) -> fmt::Result {
        write!(f, "{} {}", self.direction, self.line)
    }
}

/// Whether a cell below column p is neither the parity of a diagonal nor that of an antidiagonal.
fn off_parity(prime: Prime, cell: Cell) -> bool
    requires { cell.row < prime.number - 1 }
    ensures { result ≡ (not (cell.column == cell.row + 1) && not (cell.column == prime.number - 1 - cell.row)) }
{
    let p = prime.number;
    let Cell { row, column } = cell;
    (column != row + 1) & (column != p - 1 - row)
}

/// Whether the cell holds data.
#[tactic(auto, using(std::proofs::lemmas::Bool::Decides::nat_tests), unfolding(crate::specs::Stripe::data_cell))]
pub(crate) fn is_data(prime: Prime, cell: Cell) -> bool
    ensures { result ≡ data_cell prime.number cell.row cell.column }
{
    let p = prime.number;
    cell.row < p - 1 && cell.column < p && off_parity(prime, cell)
}

/// Where a cell stands in a stripe buffer.
pub(crate) fn index_of(prime: Prime, cell: Cell) -> usize
    requires { (cell.row < prime.number - 1) × (cell.column ≤ prime.number) }
    ensures value { result ≡ cell_index prime.number cell.row cell.column }
    ensures within { result < (prime.number - 1) * (prime.number + 1) }
    ensures below { cell.column < prime.number → result < prime.number * (prime.number - 1) }
{
    cell.column * (prime.number - 1) + cell.row
}

impl Direction {
    /// The line on which a cell lies.
    fn line_of(self, prime: Prime, cell: Cell) -> usize
        requires { (cell.row < prime.number - 1) × (cell.column < prime.number) }
        ensures { result ≡ line_of prime.number self cell.row cell.column }
    {
        let p = prime.number;
        let Cell { row, column } = cell;
        match self {
            Direction::Row => row,
            Direction::Diagonal => prime.wrapped(row + column),
            Direction::Antidiagonal => prime.wrapped(row + (p - column)),
        }
    }
}

impl Chain {
    /// The parity cell, which stands in the row of the line's number.
    pub(crate) fn parity_cell(self, prime: Prime) -> Cell
        requires { self.line < prime.number - 1 }
        ensures value { result ≡ parity_cell prime.number self.direction self.line }
        ensures within { result.column ≤ prime.number }
    {
        let p = prime.number;
        let line = self.line;
        let column = match self.direction {
            Direction::Row => p,
            Direction::Diagonal => line + 1,
            Direction::Antidiagonal => p - 1 - line,
        };
        Cell { row: line, column }
    }

    /// The cell in which the line crosses a column.
    pub(crate) fn crossing(self, prime: Prime, column: usize) -> Cell
        requires { (self.line < prime.number - 1) × (column < prime.number) }
        ensures row { result.row ≡ crossing prime.number self.direction self.line column }
        ensures column { result.column ≡ column }
    {
        let p = prime.number;
        let line = self.line;
        let row = match self.direction {
            Direction::Row => line,
            Direction::Diagonal => prime.wrapped(line + (p - column)),
            Direction::Antidiagonal => prime.wrapped(line + column),
        };
        Cell { row, column }
    }
}

/// Whether the cell holds data and lies on the line.
#[tactic(auto, using(crate::proofs::Cells::data_facts))]
fn on_line(prime: Prime, chain: Chain, cell: Cell) -> bool
    ensures { result ≡ covers prime.number chain.direction chain.line cell.row cell.column }
{
    is_data(prime, cell) && chain.direction.line_of(prime, cell) == chain.line
}

/// The parity cell of the line through a data cell.
#[tactic(auto, using(crate::proofs::Cells::data_facts))]
fn parity_through(prime: Prime, cell: Cell, direction: Direction) -> Cell
    requires { data_cell prime.number cell.row cell.column ≡ true }
    ensures { result ≡ parity_cell prime.number direction (line_of prime.number direction cell.row cell.column) }
{
    let line = direction.line_of(prime, cell);
    Chain { direction, line }.parity_cell(prime)
}

impl Geometry {
    /// Where a cell stands in a stripe buffer, or nothing where the stripe has no such cell.
    pub fn index(self, cell: Cell) -> Option<usize>
        ensures { MatchOption result ((cell.row < prime_of self - 1) × (cell.column ≤ prime_of self) → ⊥) (λ i. Stands (prime_of self) cell.row cell.column i) }
    {
        let p = self.prime().number;
        let is_there = cell.row < p - 1 && cell.column <= p;
        is_there.then(|| index_of(self.prime(), cell))
    }

    /// How many chains a stripe has, 3(p - 1).
    pub fn chains(self) -> usize
        ensures { result ≡ chains_in (prime_of self) }
    {
        3 * (self.prime().number - 1)
    }

    /// The chain of a number: the rows come first, then the diagonals, then the antidiagonals.
    pub fn chain(self, number: usize) -> Option<Chain>
        ensures { MatchOption result (chains_in (prime_of self) ≤ number) (λ c. Numbered (prime_of self) c.direction c.line number) }
    {
        let lines = self.prime().number - 1;
        let (direction, line) = if number < lines {
            (Direction::Row, number)
        } else if number < 2 * lines {
            (Direction::Diagonal, number - lines)
        } else if number < 3 * lines {
            (Direction::Antidiagonal, number - 2 * lines)
        } else {
            return None;
        };
        Some(Chain { direction, line })
    }

    /// The parity cell of a chain, or nothing where the stripe has no such line.
    pub fn parity(self, chain: Chain) -> Option<Cell>
        ensures { MatchOption result (prime_of self - 1 ≤ chain.line) (λ c. (chain.line < prime_of self - 1) × (c ≡ parity_cell (prime_of self) chain.direction chain.line)) }
    {
        let is_there = chain.line < self.prime().number - 1;
        is_there.then(|| chain.parity_cell(self.prime()))
    }

    /// Whether the parity of the chain covers the cell.
    #[tactic(auto, using(crate::proofs::Lines::lines))]
    pub fn covers(self, chain: Chain, cell: Cell) -> bool
        ensures value { result ≡ covers (prime_of self) chain.direction chain.line cell.row cell.column }
        ensures lines { Lines (prime_of self) }
    {
        on_line(self.prime(), chain, cell)
    }

    /// The cell of a column that the parity of a chain covers, or nothing where it covers none there. It covers at most one: a line
    /// crosses each column once.
    #[tactic(auto, using(crate::proofs::Lines::covered_nowhere, crate::proofs::Lines::covered_beyond))]
    pub fn covered(self, chain: Chain, column: usize) -> Option<Cell>
        ensures { MatchOption result
            ((r : ℕ) → covers (prime_of self) chain.direction chain.line r column ≡ false)
            (λ c. (c.column ≡ column) × (covers (prime_of self) chain.direction chain.line c.row column ≡ true)) }
    {
        let prime = self.prime();
        if chain.line >= prime.number - 1 || column >= prime.number {
            return None;
        }
        let cell = chain.crossing(prime, column);
        on_line(prime, chain, cell).then(|| cell)
    }

    /// The three parity cells that a write to a data cell concerns, or nothing where the cell holds no data.
    pub fn parities(self, cell: Cell) -> Option<Parities>
        ensures { MatchOption result (data_cell (prime_of self) cell.row cell.column ≡ false) (λ q. Concerned (prime_of self) cell.row cell.column q.row q.diagonal q.antidiagonal) }
    {
        let prime = self.prime();
        is_data(prime, cell).then(|| Parities {
            row: parity_through(prime, cell, Direction::Row),
            diagonal: parity_through(prime, cell, Direction::Diagonal),
            antidiagonal: parity_through(prime, cell, Direction::Antidiagonal),
        })
    }
}
