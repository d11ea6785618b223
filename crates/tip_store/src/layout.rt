// Where the strips of an array stand in a store.
ghost use Rattle.std.specs.Prelude.{◌≤◌};
ghost use Rattle.tip_code.specs.Geometry.{prime_of};

use super::status::{Event, advance};
use tip_code::geometry::Geometry;

/// The strips of an array, which a store keeps one after another, stripe by stripe and column by column: of each there is a part of
/// `width` bytes, which begins with its status byte.
#[derive(Clone, Copy)]
pub struct Layout {
    geometry: Geometry,
    width: usize,
    pub ghost least: { 1 ≤ width },
    pub ghost most: { width ≤ 241 },
    pub ghost high: { prime_of geometry ≤ 31 },
}

/// Where a strip stands: its number, counted from 0, and the index of its status byte.
#[derive(Clone, Copy)]
pub struct Spot {
    pub number: usize,
    pub status: usize,
}

impl Layout {
    ghost use Rattle.std.specs.Prelude.{◌≡◌, ◌+◌, ◌-◌, ◌*◌, ◌≤◌, ◌<◌, MatchOption};
    ghost use Rattle.tip_code.specs.Geometry.{prime_of, stripes_of};
    ghost use Rattle.tip_store.specs.Layout.{strips_in, strip_number, HasStrip, Spotted, Swept};

    /// The layout of status bytes alone.
    #[tactic(auto, using(crate::proofs::Numbers::prime_high))]
    pub fn of_statuses(geometry: Geometry) -> Layout
        ensures { (result.geometry ≡ geometry) × (result.width ≡ 1) }
    {
        Layout { geometry, width: 1 }
    }

    /// The layout of status bytes with p - 1 words of eight bytes after each.
    pub fn of_words(geometry: Geometry) -> Layout
        ensures { (result.geometry ≡ geometry) × (result.width ≡ 8 * (prime_of geometry - 1) + 1) }
    {
        let rows = geometry.prime().number - 1;
        Layout {
            geometry,
            width: 8 * rows + 1,
        }
    }

    /// How many strips the array has.
    pub fn strips(self) -> usize
        ensures { result ≡ strips_in (prime_of self.geometry) (stripes_of self.geometry) }
    {
        (self.geometry.prime().number + 1) * self.geometry.stripes()
    }

    /// How many bytes a buffer has.
    pub fn bytes(self) -> usize
        ensures { result ≡ strips_in (prime_of self.geometry) (stripes_of self.geometry) * self.width }
    {
        self.strips() * self.width
    }

    /// The number of a strip that there is.
    #[tactic(auto, using(crate::proofs::Numbers::number_below))]
    fn number(self, stripe: usize, column: usize) -> usize
        requires { HasStrip (prime_of self.geometry) (stripes_of self.geometry) stripe column }
        ensures value { result ≡ strip_number (prime_of self.geometry) stripe column }
        ensures below { result < strips_in (prime_of self.geometry) (stripes_of self.geometry) }
    {
        stripe * (self.geometry.prime().number + 1) + column
    }

    /// Where a strip stands that there is.
    fn spot_of(self, stripe: usize, column: usize) -> Spot
        requires { HasStrip (prime_of self.geometry) (stripes_of self.geometry) stripe column }
        ensures { Spotted (prime_of self.geometry) (stripes_of self.geometry) self.width stripe column result }
    {
        let number = self.number(stripe, column);
        Spot {
            number,
            status: number * self.width,
        }
    }

    /// Where the strip stands, or nothing beyond the last stripe or column.
    pub fn spot(self, stripe: usize, column: usize) -> Option<Spot>
        ensures { MatchOption result (HasStrip (prime_of self.geometry) (stripes_of self.geometry) stripe column → ⊥) (λ s. Spotted (prime_of self.geometry) (stripes_of self.geometry) self.width stripe column s) }
    {
        if stripe >= self.geometry.stripes() || column > self.geometry.prime().number {
            return None;
        }
        Some(self.spot_of(stripe, column))
    }

    /// Changes the status byte of each strip of a device, which are those of the column with its number, by an event. A device above p has
    /// no strips.
    #[tactic(auto, using(crate::proofs::Sweeping::swept_none, crate::proofs::Sweeping::swept_more))]
    pub fn sweep(self, device: usize, event: Event, bytes: &mut [u8])
        ensures swept { device ≤ prime_of self.geometry → Swept (prime_of self.geometry) (stripes_of self.geometry) self.width device event bytes.old bytes.new }
        ensures beyond { prime_of self.geometry < device → bytes.new ≡ bytes.old }
    {
        if device > self.geometry.prime().number {
            return;
        }
        for stripe in 0..self.geometry.stripes() {
            advance(bytes, self.number(stripe, device) * self.width, event);
        }
    }
}
