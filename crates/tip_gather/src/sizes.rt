// How large the stripes of a shelf are.
ghost use Rattle.std.specs.Prelude.{◌≡◌, ◌+◌, ◌-◌, ◌≤◌};

use tip_shelf::shelf::Shelf;

/// How many rows a stripe has.
pub fn rows_of<S: Shelf>(shelf: &S) -> usize
    ensures { result ≡ (S.meaning shelf.now).prime - 1 }
{
    shelf.geometry().prime().number - 1
}

/// How many columns a stripe has.
pub fn columns_of<S: Shelf>(shelf: &S) -> usize
    ensures value { result ≡ (S.meaning shelf.now).prime + 1 }
    ensures most { result ≤ 32 }
    ensures least { 4 ≤ result }
{
    shelf.geometry().prime().number + 1
}
