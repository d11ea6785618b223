// The columns of a stripe whose strips are out, and those whose strips are blank.
ghost use Rattle.std.specs.Prelude.{◌≡◌, ℕ, ◌+◌, ◌<◌, ◌≤◌, ◌||◌, ◌==◌};
ghost use Rattle.tip_columns.specs.Sets.{in_set};
ghost use Rattle.tip_shelf.specs.Calls.{Same, is_blank, is_out};
ghost use Rattle.tip_shelf.specs.Performing.{Performed, AtMost};
ghost use Rattle.tip_gather.specs.Gathering.{Picked, outs};
ghost use Rattle.tip_gather.specs.Looking.{AsksState};

use super::sizes::columns_of;
use tip_columns::Columns;
use tip_shelf::shelf::{Shelf, State};

/// Whether a strip is out.
pub fn is_out<S: Shelf>(shelf: &mut S, stripe: usize, column: usize) -> bool
    ensures same { Same (S.meaning shelf.old) (S.meaning shelf.new) }
    ensures value { result ≡ is_out ((S.meaning shelf.old).strip stripe column) }
    ensures lent { S.lent shelf.new ≡ S.lent shelf.old }
    ensures calls { AtMost 1 (AsksState stripe) (Performed S.meaning S.performs) shelf.old shelf.new }
{
    shelf.state(stripe, column) != State::Held
}

/// Whether a strip is blank.
pub fn is_blank<S: Shelf>(shelf: &mut S, stripe: usize, column: usize) -> bool
    ensures same { Same (S.meaning shelf.old) (S.meaning shelf.new) }
    ensures value { result ≡ is_blank ((S.meaning shelf.old).strip stripe column) }
    ensures lent { S.lent shelf.new ≡ S.lent shelf.old }
    ensures calls { AtMost 1 (AsksState stripe) (Performed S.meaning S.performs) shelf.old shelf.new }
{
    shelf.state(stripe, column) == State::Blank
}

/// The set with one column more, which has a bit since p is at most 31.
fn added(set: Columns, column: usize) -> Columns
    requires { column < 64 }
    ensures { (c : ℕ) → in_set result c ≡ (c == column || in_set set c) }
{
    set.with(column).unwrap_or(set)
}

/// The columns of a stripe whose strips are out; all of them where there is no such stripe.
#[tactic(auto, using(crate::proofs::Picking::picked_none, tip_shelf::proofs::Series::at_most_none))]
pub fn columns_out<S: Shelf>(shelf: &mut S, stripe: usize) -> Columns
    ensures picked { Picked is_out (S.meaning shelf.old) (S.meaning shelf.new) stripe ((S.meaning shelf.old).prime + 1) result }
    ensures lent { S.lent shelf.new ≡ S.lent shelf.old }
    ensures calls { AtMost ((S.meaning shelf.old).prime + 1) (AsksState stripe)
        (Performed S.meaning S.performs) shelf.old shelf.new }
{
    let mut out = Columns(0);
    for column in 0..columns_of(shelf) {
        if is_out(shelf, stripe, column) {
            out = added(out, column);
        }
    }
    out
}

/// The columns of a stripe whose strips are blank.
#[tactic(auto, using(crate::proofs::Picking::picked_none, tip_shelf::proofs::Series::at_most_none))]
pub fn columns_blank<S: Shelf>(shelf: &mut S, stripe: usize) -> Columns
    ensures picked { Picked is_blank (S.meaning shelf.old) (S.meaning shelf.new) stripe ((S.meaning shelf.old).prime + 1) result }
    ensures lent { S.lent shelf.new ≡ S.lent shelf.old }
    ensures calls { AtMost ((S.meaning shelf.old).prime + 1) (AsksState stripe)
        (Performed S.meaning S.performs) shelf.old shelf.new }
{
    let mut blank = Columns(0);
    for column in 0..columns_of(shelf) {
        if is_blank(shelf, stripe, column) {
            blank = added(blank, column);
        }
    }
    blank
}

/// How many strips of a stripe are out.
pub fn count_out<S: Shelf>(shelf: &mut S, stripe: usize) -> usize
    ensures same { Same (S.meaning shelf.old) (S.meaning shelf.new) }
    ensures value { result ≡ outs (S.meaning shelf.old) stripe }
    ensures most { result ≤ 32 }
    ensures lent { S.lent shelf.new ≡ S.lent shelf.old }
    ensures calls { AtMost ((S.meaning shelf.old).prime + 1) (AsksState stripe)
        (Performed S.meaning S.performs) shelf.old shelf.new }
{
    columns_out(shelf, stripe).count() as usize
}
