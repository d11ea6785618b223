//! The image shelf: strips of words in the bytes of an image that a caller lends.
#![tactic(auto)]

ghost use Rattle.tip_image.specs.Image.{image_of, loans};
ghost use Rattle.tip_image.specs.Writing.{Writes};
ghost use Rattle.tip_image.specs.Laws.{image_sound, image_devices};

mod words;

use self::words::{read_word, write_word, write_words};
use tip_code::geometry::Geometry;
use tip_code::stop::Stop;
use tip_element::word::Word;
use tip_shelf::shelf::{Out, Serviced, Shelf, State};
use tip_store::layout::{Layout, Spot};
use tip_store::status::{Event, advance, state_at};

/// A steady shelf in one lent buffer of bytes: stripe by stripe and column by column a status byte, 0 for absent, 1 for blank, 2 for held
/// and any other for absent, then p - 1 words of eight bytes, the highest byte first. Device c carries column c.
/// Over an image of another length all strips are absent, and nothing is ever written.
#[derive(Drop)]
pub struct ImageShelf<'a> {
    pub geometry: &'a Geometry,
    pub bytes: &'a mut [u8],
}

impl<'a> ImageShelf<'a> {
    ghost use Rattle.std.specs.Prelude.{◌≡◌, length, IfOk};
    ghost use Rattle.tip_code.specs.Geometry.{prime_of, stripes_of};
    ghost use Rattle.tip_code.specs.Stops.{Stopped};
    ghost use Rattle.tip_image.specs.Image.{LengthStop, Over};

    /// The shelf over an image of any length. Whatever it holds means something: see the type.
    pub fn over(geometry: &'a Geometry, bytes: &'a mut [u8]) -> ImageShelf<'a>
        ensures { Over geometry.now bytes.entry result }
    {
        ImageShelf { geometry, bytes }
    }

    /// The shelf over an image that fits: 8(p - 1) + 1 bytes for each strip. It stays as it is.
    /// Stop 3: the image has another length.
    #[tactic(auto, using(crate::proofs::Sizing::length_stop, crate::proofs::Sizing::no_stop))]
    pub fn new(geometry: &'a Geometry, bytes: &'a mut [u8]) -> Result<ImageShelf<'a>, Stop>
        ensures stop { Stopped (LengthStop (prime_of geometry.now) (stripes_of geometry.now) (length bytes.old)) result }
        ensures value { IfOk result (Over geometry.now bytes.entry) }
    {
        let shelf = ImageShelf::over(geometry, bytes);
        if shelf.fits() {
            Ok(shelf)
        } else {
            Err(Stop::Length)
        }
    }
}

impl Shelf for ImageShelf<'_> {
    type Element = Word;

    ghost meaning = { image_of };

    ghost lent = { loans };

    ghost performs = { Writes };

    fn geometry(&self) -> Geometry {
        *self.geometry
    }

    fn is_steady(&self) -> bool {
        true
    }

    fn state(&mut self, stripe: usize, column: usize) -> State {
        match self.spot(stripe, column) {
            Some(spot) => self.state_of(spot),
            None => State::Absent,
        }
    }

    #[tactic(auto, using(crate::proofs::Calling::image_got))]
    fn get(&mut self, stripe: usize, column: usize, row: usize) -> Result<Word, Out> {
        let Some(index) = self.held_word(stripe, column, row) else {
            return Err(Out);
        };
        Ok(self.word(index))
    }

    fn put(&mut self, stripe: usize, column: usize, row: usize, element: Word) -> Result<(), Out> {
        let Some(index) = self.held_word(stripe, column, row) else {
            return Err(Out);
        };
        write_word(self.bytes, index, element);
        Ok(())
    }

    fn erase(&mut self, stripe: usize, column: usize) -> Result<(), Out> {
        let Some(spot) = self.spot(stripe, column) else {
            return Err(Out);
        };
        if self.state_of(spot) == State::Absent {
            return Err(Out);
        }
        advance(self.bytes, spot.status, Event::Erase);
        Ok(())
    }

    fn restore(&mut self, stripe: usize, column: usize, elements: &[Word]) -> Result<(), Out> {
        let Some(spot) = self.spot(stripe, column) else {
            return Err(Out);
        };
        if elements.len() != self.rows() || self.state_of(spot) != State::Blank {
            return Err(Out);
        }
        advance(self.bytes, spot.status, Event::Restore);
        write_words(self.bytes, spot.status + 1, elements);
        Ok(())
    }

    ghost sound = { image_sound };
}

impl Serviced for ImageShelf<'_> {
    fn pull(&mut self, device: usize) {
        self.sweep(device, Event::Pull);
    }

    fn fit(&mut self, device: usize) -> bool {
        self.sweep(device, Event::Fit)
    }

    ghost devices = { image_devices };
}

impl ImageShelf<'_> {
    ghost use Rattle.std.specs.Prelude.{◌≡◌, ◌+◌, ◌-◌, ◌<◌, ◌&&◌, nat_le, true, length, MatchOption, slice_index_or};
    ghost use Rattle.tip_code.specs.Geometry.{prime_of, stripes_of};
    ghost use Rattle.tip_image.specs.Image.{width, fits_of, loans, word_from, WordAt, NoWord};
    ghost use Rattle.tip_image.specs.Writing.{Serves};
    ghost use Rattle.tip_store.specs.Layout.{HasStrip, Spotted};
    ghost use Rattle.tip_store.specs.Status.{state_for};

    /// How the strips stand.
    fn layout(&self) -> Layout
        ensures { (result.geometry ≡ self.now.geometry.now) × (result.width ≡ width (prime_of self.now.geometry.now)) }
    {
        Layout::of_words(*self.geometry)
    }

    /// How many rows a strip has.
    fn rows(&self) -> usize
        ensures { result ≡ prime_of self.now.geometry.now - 1 }
    {
        self.geometry.prime().number - 1
    }

    /// Whether the image has the length of the array.
    fn fits(&self) -> bool
        ensures { result ≡ fits_of self.now }
    {
        self.bytes.len() == self.layout().bytes()
    }

    /// Whether there are strips on the device.
    fn serves(&self, device: usize) -> bool
        ensures { result ≡ (fits_of self.now && nat_le device (prime_of self.now.geometry.now)) }
    {
        self.fits() && device <= self.geometry.prime().number
    }

    /// Changes the status bytes of the strips on the device by an event, and says whether there are any.
    fn sweep(&mut self, device: usize, event: Event) -> bool
        ensures swept { Serves self.old self.new device event }
        ensures geometry { self.new.geometry.now ≡ self.old.geometry.now }
        ensures lent { loans self.new ≡ loans self.old }
        ensures answer { result ≡ (fits_of self.old && nat_le device (prime_of self.old.geometry.now)) }
    {
        if !self.serves(device) {
            return false;
        }
        self.layout().sweep(device, event, self.bytes);
        true
    }

    /// Where a strip stands, or nothing where there is none.
    fn spot(&self, stripe: usize, column: usize) -> Option<Spot>
        ensures { MatchOption result (fits_of self.now ≡ true → HasStrip (prime_of self.now.geometry.now) (stripes_of self.now.geometry.now) stripe column → ⊥) (λ s. (fits_of self.now ≡ true) × Spotted (prime_of self.now.geometry.now) (stripes_of self.now.geometry.now) (width (prime_of self.now.geometry.now)) stripe column s) }
    {
        if self.fits() {
            self.layout().spot(stripe, column)
        } else {
            None
        }
    }

    /// What the status byte at a spot says.
    fn state_of(&self, spot: Spot) -> State
        ensures { result ≡ state_for (slice_index_or self.now.bytes.now spot.status 0) }
    {
        state_at(self.bytes, spot.status)
    }

    /// The word that begins at an index.
    fn word(&self, index: usize) -> Word
        requires { index + 7 < length self.now.bytes.now }
        ensures { result ≡ word_from self.now.bytes.now index }
    {
        read_word(self.bytes, index)
    }

    /// Where the word of a held strip begins, or nothing where the strip is out or there is no such row.
    fn held_word(&self, stripe: usize, column: usize, row: usize) -> Option<usize>
        ensures { MatchOption result (NoWord self.now stripe column row) (WordAt self.now stripe column row) }
    {
        let spot = self.spot(stripe, column)?;
        if row >= self.rows() || self.state_of(spot) != State::Held {
            return None;
        }
        Some(spot.status + (1 + 8 * row))
    }
}
