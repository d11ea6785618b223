// A stripe as a table of its rows.
use std::fmt;
use tip_code::chain::Cell;
use tip_code::geometry::Geometry;
use tip_columns::Columns;
use tip_element::word::Word;

/// A stripe buffer of words, and the columns that are not to be shown.
#[derive(Clone, Copy)]
pub struct Table<'a> {
    pub geometry: Geometry,
    pub cells: &'a [Word],
    pub hidden: Columns,
}

/// Shows the cells of one row, each hidden one as `--`.
fn show_row<W: fmt::Write>(
    table: &Table<'_>,
    row: usize,
    f: &mut fmt::Formatter<W>,
) -> fmt::Result {
    for column in 0..=table.geometry.prime().number {
        let index = table.geometry.index(Cell { row, column });
        match index.and_then(|index| table.cells.get(index)) {
            Some(Word(value)) if !table.hidden.has(column) => write!(f, "{value:>5}")?,
            _ => f.write_str("   --")?,
        }
    }
    f.write_str("\n")
}

/// A line for each row.
impl fmt::Display for Table<'_> {
    fn fmt<W: fmt::Write>(&self, f: &mut fmt::Formatter<W>) -> fmt::Result {
        for row in 0..self.geometry.prime().number - 1 {
            show_row(self, row, f)?;
        }
        Ok(())
    }
}
