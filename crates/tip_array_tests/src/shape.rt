// The sizes of an array, and the rules of its stripes written out a second time.
use tip_code::chain::Direction;

/// The prime, the number of stripes, and how columns lie on devices.
#[derive(Clone, Copy, PartialEq, Eq, Debug)]
pub struct Shape {
    pub p: usize,
    pub stripes: usize,
    /// Whether column c of stripe s is on device (c + s) mod (p + 1), and not on device c.
    pub turns: bool,
}

impl Shape {
    /// How many rows a column has.
    pub fn rows(self) -> usize {
        self.p.saturating_sub(1)
    }

    /// How many columns a stripe has, which are as many as there are devices.
    pub fn columns(self) -> usize {
        self.p.saturating_add(1)
    }

    /// How many cells a stripe has.
    pub fn cells(self) -> usize {
        self.rows().saturating_mul(self.columns())
    }

    /// How many places a stripe has.
    pub fn places(self) -> usize {
        self.rows().saturating_mul(self.p.saturating_sub(2))
    }

    /// How many elements a work buffer needs.
    pub fn work(self) -> usize {
        self.columns()
            .saturating_mul(self.columns())
            .saturating_mul(4)
    }

    /// The index of a cell in a stripe buffer.
    pub fn index(self, row: usize, column: usize) -> usize {
        column.saturating_mul(self.rows()).saturating_add(row)
    }

    /// The device of a strip.
    pub fn device(self, stripe: usize, column: usize) -> usize {
        if self.turns {
            let turned = column.saturating_add(stripe);
            turned.checked_rem(self.columns()).unwrap_or(0)
        } else {
            column
        }
    }

    /// Whether a cell is a place.
    pub fn is_place(self, row: usize, column: usize) -> bool {
        let (next, mirrored) = (row.saturating_add(1), row.saturating_add(column));
        column < self.p && column != next && mirrored.saturating_add(1) != self.p
    }

    /// The column of a place. Each row has p - 2 places.
    pub fn column_of(self, place: usize) -> Option<usize> {
        let in_row = self.p.saturating_sub(2);
        let row = place.checked_div(in_row)?;
        let number = place.checked_rem(in_row)?;
        (0..self.p)
            .filter(|column| self.is_place(row, *column))
            .nth(number)
    }

    /// The column of the parity of a line.
    fn parity_column(self, direction: Direction, line: usize) -> usize {
        match direction {
            Direction::Row => self.p,
            Direction::Diagonal => line.saturating_add(1),
            Direction::Antidiagonal => self.rows().saturating_sub(line),
        }
    }

    /// The line of a direction that a place lies on.
    fn line(self, direction: Direction, row: usize, column: usize) -> usize {
        let crossed = match direction {
            Direction::Row => row,
            Direction::Diagonal => row.saturating_add(column),
            Direction::Antidiagonal => row.saturating_add(self.p).saturating_sub(column),
        };
        crossed.checked_rem(self.p).unwrap_or(0)
    }

    /// Whether a cell belongs to the chain of a line.
    pub fn chains(self, direction: Direction, line: usize, row: usize, column: usize) -> bool {
        if self.is_place(row, column) {
            self.line(direction, row, column) == line
        } else {
            row == line && column == self.parity_column(direction, line)
        }
    }
}
