// A plain model of shelves, which writes their rules out a second time. Of the library it takes the names of the three states alone.
use crate::calls::{Answer, Call};
use std::alloc::{AllocError, Global};
use tip_shelf::shelf::State;

/// The prime and the number of stripes.
#[derive(Clone, Copy, PartialEq, Eq, Debug)]
pub struct Sizes {
    pub p: usize,
    pub stripes: usize,
}

impl Sizes {
    /// How many elements a held strip has.
    pub fn rows(self) -> usize {
        self.p.saturating_sub(1)
    }

    /// How many strips a stripe has.
    pub fn columns(self) -> usize {
        self.p.saturating_add(1)
    }

    /// How many strips there are.
    pub fn strips(self) -> usize {
        self.stripes.saturating_mul(self.columns())
    }

    /// The number of a strip, counted stripe by stripe, or nothing beyond the last stripe or column.
    pub fn strip(self, stripe: usize, column: usize) -> Option<usize> {
        if stripe < self.stripes && column <= self.p {
            stripe.checked_mul(self.columns())?.checked_add(column)
        } else {
            None
        }
    }
}

/// What a store keeps, strip by strip: the status bytes, and the numbers of the elements, of blank and absent strips too.
#[derive(Drop, PartialEq, Debug)]
pub struct Store {
    pub statuses: Vec<u8>,
    pub cells: Vec<u64>,
}

impl Store {
    /// The same once more.
    pub fn copied(&self) -> Result<Store, AllocError> {
        Ok(Store {
            statuses: self.statuses.clone()?,
            cells: self.cells.clone()?,
        })
    }

    /// The bytes of an image: of each strip its status byte, and then its words, the highest byte of each first.
    pub fn image(&self, heap: Global, rows: usize) -> Result<Vec<u8>, AllocError> {
        let mut bytes = Vec::new(heap);
        let mut cells = self.cells.iter();
        for status in &self.statuses {
            bytes.push(*status)?;
            for _ in 0..rows {
                let word = cells.next().map_or(0, |cell| *cell);
                bytes.extend_from_slice(&word.to_be_bytes())?;
            }
        }
        Ok(bytes)
    }
}

/// What stands at an index.
fn at<T: Copy>(items: &[T], index: usize, beyond: T) -> T {
    items.get(index).map_or(beyond, |item| *item)
}

/// Writes an item at an index.
pub fn set<T: Copy>(items: &mut [T], index: usize, item: T) {
    if index < items.len() {
        items[index] = item;
    }
}

/// What a status byte says.
pub fn told(status: u8) -> State {
    if status == 2 {
        State::Held
    } else if status == 1 {
        State::Blank
    } else {
        State::Absent
    }
}

/// A store with what a shelf over it answers: plain or turned, and with the devices that are pulled before accesses.
#[derive(Drop)]
pub struct Model {
    pub sizes: Sizes,
    /// Whether column c of stripe s is on device (c + s) mod (p + 1) and not on device c.
    pub turns: bool,
    pub store: Store,
    /// The number of an access, and the device that is pulled before it.
    pub losses: Vec<(u32, usize)>,
    pub accesses: u32,
}

impl Model {
    /// The number of the strip in the store.
    fn strip(&self, stripe: usize, column: usize) -> Option<usize> {
        let sizes = self.sizes;
        sizes.strip(stripe, column)?;
        if self.turns {
            let turned = column.checked_add(stripe)?.checked_rem(sizes.columns())?;
            sizes.strip(stripe, turned)
        } else {
            sizes.strip(stripe, column)
        }
    }

    fn status(&self, strip: usize) -> u8 {
        at(&self.store.statuses, strip, 0)
    }

    /// The index of an element.
    fn index(&self, strip: usize, row: usize) -> usize {
        strip.wrapping_mul(self.sizes.rows()).wrapping_add(row)
    }

    /// Every strip of the device is absent.
    fn pull(&mut self, device: usize) {
        for stripe in 0..self.sizes.stripes {
            if let Some(strip) = self.sizes.strip(stripe, device) {
                set(&mut self.store.statuses, strip, 0);
            }
        }
    }

    /// Every absent strip of the device is blank.
    fn fit(&mut self, device: usize) {
        for stripe in 0..self.sizes.stripes {
            if let Some(strip) = self.sizes.strip(stripe, device) {
                if told(self.status(strip)) == State::Absent {
                    set(&mut self.store.statuses, strip, 1);
                }
            }
        }
    }

    /// Counts an access to a strip, unless it is out of range, and pulls what is planned for it.
    fn access(&mut self, stripe: usize, column: usize, is_in_range: bool) -> Option<usize> {
        let strip = self.strip(stripe, column)?;
        if !is_in_range {
            return None;
        }
        self.accesses = self.accesses.saturating_add(1);
        for number in 0..self.losses.len() {
            let (access, device) = at(&self.losses, number, (0, 0));
            if access == self.accesses {
                self.pull(device);
            }
        }
        Some(strip)
    }

    fn get(&mut self, stripe: usize, column: usize, row: usize) -> Option<u64> {
        let strip = self.access(stripe, column, row < self.sizes.rows())?;
        let index = self.index(strip, row);
        (self.status(strip) == 2).then(|| at(&self.store.cells, index, 0))
    }

    fn put(&mut self, stripe: usize, column: usize, row: usize, number: u64) -> Option<()> {
        let strip = self.access(stripe, column, row < self.sizes.rows())?;
        if self.status(strip) != 2 {
            return None;
        }
        let index = self.index(strip, row);
        set(&mut self.store.cells, index, number);
        Some(())
    }

    fn erase(&mut self, stripe: usize, column: usize) -> Option<()> {
        let strip = self.access(stripe, column, true)?;
        if told(self.status(strip)) == State::Absent {
            return None;
        }
        set(&mut self.store.statuses, strip, 1);
        Some(())
    }

    fn restore(&mut self, stripe: usize, column: usize, count: usize, first: u64) -> Option<()> {
        let strip = self.access(stripe, column, count == self.sizes.rows())?;
        if self.status(strip) != 1 {
            return None;
        }
        set(&mut self.store.statuses, strip, 2);
        for row in 0..count {
            let index = self.index(strip, row);
            set(&mut self.store.cells, index, first.wrapping_add(row as u64));
        }
        Some(())
    }

    /// The answer to a call.
    pub fn ask(&mut self, call: Call) -> Answer {
        match call {
            Call::State { stripe, column } => Answer::Told(
                self.strip(stripe, column)
                    .map_or(State::Absent, |strip| told(self.status(strip))),
            ),
            Call::Get {
                stripe,
                column,
                row,
            } => self
                .get(stripe, column, row)
                .map_or(Answer::Out, Answer::Got),
            Call::Put {
                stripe,
                column,
                row,
                number,
            } => done(self.put(stripe, column, row, number)),
            Call::Erase { stripe, column } => done(self.erase(stripe, column)),
            Call::Restore {
                stripe,
                column,
                count,
                first,
            } => done(self.restore(stripe, column, count, first)),
            Call::Pull { device } => {
                self.pull(device);
                Answer::Pulled
            }
            Call::Fit { device } => {
                self.fit(device);
                Answer::Fitted(device <= self.sizes.p)
            }
        }
    }
}

/// The answer of a call that says no more than that it was done.
fn done(answer: Option<()>) -> Answer {
    answer.map_or(Answer::Out, |_| Answer::Done)
}
