// What is to be lost, read from the words of a command line.
ghost use Rattle.std.specs.Prelude.{◌≡◌, ℕ, ◌+◌, ◌≤◌, ◌||◌, ◌==◌, IfOk, MatchOption, MatchResult, None, Some, true, false};
ghost use Rattle.std.specs.List.{All};
ghost use Rattle.tip_code.specs.Geometry.{prime_of, stripes_of};
ghost use Rattle.tip_code.specs.Stops.{Stopped};
ghost use Rattle.tip_columns.specs.Sets.{in_set};
ghost use Rattle.tip_lose.specs.Asking.{Says, IsNumber, Gathered, FirstUnread, Chosen, Asked};
ghost use Rattle.tip_lose.specs.Choosing.{Within, Many, ChoiceStop};

use std::fmt;
use thiserror::Error;
use tip_code::geometry::Geometry;
use tip_code::stop::Stop;
use tip_columns::Columns;

/// The sizes of a stripe, and the columns that it is to lose: at most three, and none above p.
#[derive(Clone, Copy)]
pub struct Request {
    pub geometry: Geometry,
    pub lost: Columns,
}

/// Why words are refused.
#[derive(Clone, Copy, PartialEq, Debug, Error)]
pub enum Refusal {
    /// A word, counted from 1, is not a number.
    #[error("argument {0} is not a number from 0 to {most}", most = usize::MAX)]
    NoNumber(usize),
    /// The numbers are refused.
    #[error(transparent)]
    Stopped(Stop),
}

impl From<Stop> for Refusal {
    ghost use Rattle.tip_lose.specs.declared.request.Refusal.{Refusal};

    ghost from_gives = { λ s r. r ≡ Refusal.Stopped s };

    fn from(stop: Stop) -> Refusal {
        Refusal::Stopped(stop)
    }
}

/// The prime and the columns where no word is given.
const USUAL_PRIME: usize = 5;

const USUAL_COLUMNS: Columns = Columns(0b101010);

/// The number that a word says; `place` is where it stands.
fn number(word: &str, place: usize) -> Result<usize, Refusal>
    ensures { MatchResult result (λ n. Says word.now n) (λ r. (r ≡ Refusal.NoNumber place) × ((n : ℕ) → Says word.now n → ⊥)) }
{
    word.parse().map_err(move |_| Refusal::NoNumber(place))
}

/// The set with one column more, or nothing where this or an earlier one is too large for any set.
fn with(all: Option<Columns>, column: usize) -> Option<Columns>
    ensures { MatchOption all (result ≡ None) (λ s. MatchOption result (64 ≤ column) (λ t. (n : ℕ) → in_set t n ≡ (n == column || in_set s n))) }
{
    all?.with(column)
}

/// The columns that the words after the first say, or nothing where one is too large for any set.
fn columns(words: &[String]) -> Result<Option<Columns>, Refusal>
    ensures { MatchResult result (λ lost. All IsNumber words.now × Gathered words.now lost) (λ r. (k : ℕ) × FirstUnread words.now k × (r ≡ Refusal.NoNumber (k + 2))) }
{
    let mut all = Some(Columns(0));
    for (before, word) in words.iter().enumerate() {
        let column = number(word.as_str(), before + 2)?;
        all = with(all, column);
    }
    Ok(all)
}

/// Whether no column of the set is above p. A function of its own, so that an edit of the test is refused at its line.
fn all_within(p: usize, lost: Columns) -> bool
    ensures within { result ≡ true → Within p (Some lost) }
    ensures above { result ≡ false → Within p (Some lost) → ⊥ }
{
    lost.within(p)
}

/// Whether so few columns are in the set that they can be solved.
fn is_few(lost: Columns) -> bool
    ensures few { result ≡ true → Many (Some lost) → ⊥ }
    ensures many { result ≡ false → Many (Some lost) }
{
    lost.count() <= 3
}

/// The request for this prime and these columns; without columns one of them is too large for any set.
/// Stop 1: p is not one of the ten primes. Stop 12: a column is above p. Stop 13: there are more than three.
#[tactic(auto, using(crate::proofs::Refusals::listed_of, crate::proofs::Refusals::choice_prime, crate::proofs::Refusals::choice_column))]
pub fn chosen(p: usize, lost: Option<Columns>) -> Result<Request, Stop>
    ensures stop { Stopped (ChoiceStop p lost) result }
    ensures value { IfOk result (λ q. (prime_of q.geometry ≡ p) × (stripes_of q.geometry ≡ 1) × (lost ≡ Some q.lost)) }
{
    let geometry = Geometry::new(p, 1)?;
    let lost = lost.ok_or(Stop::Column)?;
    if !all_within(p, lost) {
        return Err(Stop::Column);
    }
    if !is_few(lost) {
        return Err(Stop::Lost);
    }
    Ok(Request { geometry, lost })
}

/// The same, with the stop as a refusal.
fn accepted(p: usize, lost: Option<Columns>) -> Result<Request, Refusal>
    ensures { Chosen p lost result }
{
    Ok(chosen(p, lost)?)
}

/// The request that words make: the prime, then the lost columns. Without any word p is 5, and columns 1, 3 and 5 are lost.
/// A word that is no number is refused before any stop.
#[tactic(auto, using(crate::proofs::Asking::asked_usual, crate::proofs::Asking::asked_first, crate::proofs::Asking::asked_later, crate::proofs::Asking::asked_read))]
pub fn requested(words: &[String]) -> Result<Request, Refusal>
    ensures { Asked words.now result }
{
    let [first, others @ ..] = words else {
        return accepted(USUAL_PRIME, Some(USUAL_COLUMNS));
    };
    let p = number(first.as_str(), 1)?;
    let lost = columns(others)?;
    accepted(p, lost)
}

/// As "p = 5, lost columns 1 3 5".
impl fmt::Display for Request {
    fn fmt<W: fmt::Write>(&self, f: &mut fmt::Formatter<W>) -> fmt::Result {
        let p = self.geometry.prime();
        write!(f, "p = {p}, lost columns")?;
        for column in (0..=p.number).filter(|column| self.lost.has(*column)) {
            write!(f, " {column}")?;
        }
        if self.lost.count() == 0 {
            f.write_str(" none")?;
        }
        Ok(())
    }
}
