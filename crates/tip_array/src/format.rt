// Formatting an array.
ghost use Rattle.std.specs.Prelude.{◌≡◌, ◌+◌, ◌-◌, ◌*◌, ◌<◌, ◌≤◌, ℕ, ◌&&◌, ◌==◌, length, nat_lt, OnOk, IfErr};
ghost use Rattle.tip_element.specs.Counts.{join_below};
ghost use Rattle.tip_element.specs.Slices.{AllZero};
ghost use Rattle.tip_shelf.specs.Meaning.{Within};
ghost use Rattle.tip_shelf.specs.Calls.{Same};
ghost use Rattle.tip_solve.specs.Solving.{work_in, WorkAfter};
ghost use Rattle.tip_gather.specs.Gathering.{outs};
ghost use Rattle.tip_code.specs.Stops.{number};
ghost use Rattle.tip_array.specs.Steps.{FormatStep};
ghost use Rattle.tip_array.specs.Keeping.{OnlyFormats};
ghost use Rattle.tip_array.specs.Runs.{EveryRunFrom, zero_board};
ghost use Rattle.tip_array.specs.Formatting.{ZeroedPart};

use crate::array::Array;
use tip_code::stop::Stop;
use tip_element::element::Element;
use tip_element::slices::clear;
use tip_gather::columns::count_out;
use tip_gather::sizes::{columns_of, rows_of};
use tip_shelf::shelf::Shelf;
use tip_solve::solve::work_len;

/// Formats a strip.
fn zero_strip<S: Shelf>(shelf: &mut S, stripe: usize, column: usize, zeros: &[S::Element])
    requires there { Within (S.meaning shelf.old) stripe column }
    requires sized { length zeros.now ≡ (S.meaning shelf.old).prime - 1 }
    requires zero { AllZero S.Element.zero zeros.now }
    ensures zeroed { ZeroedPart S.Element.zero (S.meaning shelf.old) (S.meaning shelf.new)
        (λ j c. j == stripe && c == column) }
    ensures lent { S.lent shelf.new ≡ S.lent shelf.old }
{
    let Ok(()) = shelf.erase(stripe, column) else {
        return;
    };
    let _restored = shelf.restore(stripe, column, zeros);
}

/// Formats the strips of a stripe.
fn zero_stripe<S: Shelf>(shelf: &mut S, stripe: usize, zeros: &[S::Element])
    requires there { stripe < (S.meaning shelf.old).stripes }
    requires sized { length zeros.now ≡ (S.meaning shelf.old).prime - 1 }
    requires zero { AllZero S.Element.zero zeros.now }
    ensures zeroed { ZeroedPart S.Element.zero (S.meaning shelf.old) (S.meaning shelf.new)
        (λ j c. j == stripe && nat_lt c ((S.meaning shelf.old).prime + 1)) }
    ensures lent { S.lent shelf.new ≡ S.lent shelf.old }
{
    for column in 0..columns_of(shelf) {
        zero_strip(shelf, stripe, column, zeros);
    }
}

/// Formats all strips.
fn zero_all<S: Shelf>(shelf: &mut S, zeros: &[S::Element])
    requires sized { length zeros.now ≡ (S.meaning shelf.old).prime - 1 }
    requires zero { AllZero S.Element.zero zeros.now }
    ensures zeroed { ZeroedPart S.Element.zero (S.meaning shelf.old) (S.meaning shelf.new)
        (λ j c. nat_lt j (S.meaning shelf.old).stripes && nat_lt c ((S.meaning shelf.old).prime + 1)) }
    ensures lent { S.lent shelf.new ≡ S.lent shelf.old }
{
    for stripe in 0..shelf.geometry().stripes() {
        zero_stripe(shelf, stripe, zeros);
    }
}

/// Formats all strips, with zeros that a work buffer holds.
fn zero_with<S: Shelf>(shelf: &mut S, work: &mut [S::Element])
    requires { (S.meaning shelf.old).prime - 1 ≤ length work.old }
    ensures zeroed { ZeroedPart S.Element.zero (S.meaning shelf.old) (S.meaning shelf.new)
        (λ j c. nat_lt j (S.meaning shelf.old).stripes && nat_lt c ((S.meaning shelf.old).prime + 1)) }
    ensures lent { S.lent shelf.new ≡ S.lent shelf.old }
{
    clear(work);
    let rows = rows_of(shelf);
    zero_all(shelf, &work[..rows]);
}

/// How many strips are out, over all stripes.
fn count_all_out<S: Shelf>(shelf: &mut S) -> usize
    ensures same { Same (S.meaning shelf.old) (S.meaning shelf.new) }
    ensures value { result ≡ join_below 0 ◌+◌ (S.meaning shelf.old).stripes (outs (S.meaning shelf.old)) }
    ensures lent { S.lent shelf.new ≡ S.lent shelf.old }
{
    let mut count = 0;
    for stripe in 0..shelf.geometry().stripes() {
        count += count_out(shelf, stripe);
    }
    count
}

impl<S: Shelf> Array<S> {
    /// Makes each strip held with zeros that is not absent, and answers how many strips are out at the end, over all
    /// stripes. Accepted, it leaves no strip blank, and every run of calls that goes on from there is sound.
    ///
    /// The work buffer has 4(p + 1)(p + 1) elements or more. Afterwards so many of its first elements are zero, and
    /// those beyond are as they were. Stop 9: it is shorter. Then nothing changes.
    pub fn format(&mut self, work: &mut [S::Element]) -> Result<usize, Stop>
        ensures step { FormatStep S.Element.zero (S.meaning self.old.shelf) (S.meaning self.new.shelf) (length work.old)
            result }
        ensures sound { OnOk result (EveryRunFrom S.Element.zero S.Element.join (S.meaning self.new.shelf) (zero_board S.Element.zero)) }
        ensures keeps { OnlyFormats (S.meaning self.old.shelf) (S.meaning self.new.shelf) result }
        ensures work { WorkAfter S.Element.zero (work_in (S.meaning self.old.shelf).prime) work.old work.new result }
        ensures early { IfErr result (λ s. number s < 13 → self.new.shelf ≡ self.old.shelf) }
        ensures lent { S.lent self.new.shelf ≡ S.lent self.old.shelf }
    {
        let size = work_len(self.shelf.geometry());
        if work.len() < size {
            return Err(Stop::Work);
        }
        let used = &mut work[..size];
        zero_with(&mut self.shelf, used);
        clear(used);
        Ok(count_all_out(&mut self.shelf))
    }
}
