// Random-looking calls.
use crate::samples::Sample;
use crate::shape::Shape;
use std::alloc::{AllocError, Global};
use tip_array::calls::Call;

/// A source of random-looking numbers.
#[derive(Drop)]
pub struct Source {
    pub state: u64,
}

impl Source {
    /// The next number.
    pub fn number(&mut self) -> u64 {
        self.state = self
            .state
            .wrapping_mul(6364136223846793005)
            .wrapping_add(1442695040888963407);
        self.state ^ (self.state >> 29)
    }

    /// A number below this one.
    pub fn below(&mut self, count: usize) -> usize {
        let number = (self.number() >> 33) as usize;
        number.checked_rem(count).unwrap_or(0)
    }

    /// A number below this one, or now and then one beyond.
    fn about(&mut self, count: usize) -> usize {
        match self.below(40) {
            0 => count,
            1 => usize::MAX,
            _ => self.below(count),
        }
    }

    /// A device: mostly one of a few, so that what is pulled is fitted again.
    pub fn device(&mut self, shape: Shape) -> usize {
        match self.below(20) {
            0 => shape.columns(),
            1 => usize::MAX,
            2..5 => shape.p,
            5..8 => self.below(shape.columns()),
            _ => self.below(shape.p.min(5)),
        }
    }

    /// The length of a work buffer: mostly what is needed or three more.
    pub fn work(&mut self, shape: Shape) -> usize {
        match self.below(40) {
            0 => 0,
            1 => shape.work().saturating_sub(1),
            2..20 => shape.work().saturating_add(3),
            _ => shape.work(),
        }
    }

    /// A call. More devices are fitted than are pulled, so that a stripe is seldom lost for good.
    pub fn call<E: Sample>(&mut self, shape: Shape) -> Call<E> {
        let kind = self.below(40);
        let stripe = self.about(shape.stripes);
        let place = self.about(shape.places());
        let device = self.device(shape);
        let number = self.number();
        match kind {
            0..10 => Call::Read { stripe, place },
            10..20 => Call::Write {
                stripe,
                place,
                element: E::of(number),
            },
            20..27 => Call::Rebuild { stripe },
            27..30 => Call::Check { stripe },
            30..32 => Call::Pull { device },
            _ => Call::Fit { device },
        }
    }

    /// A status byte: mostly that of a held or blank strip.
    fn status(&mut self) -> u8 {
        match self.below(60) {
            0 => 0,
            1 => 3,
            2 => 255,
            3..20 => 1,
            _ => 2,
        }
    }

    /// Status bytes.
    pub fn statuses(&mut self, heap: Global, count: usize) -> Result<Vec<u8>, AllocError> {
        let mut all = Vec::new(heap);
        for _ in 0..count {
            all.push(self.status())?;
        }
        Ok(all)
    }
}
