// The story: an array, and steps that are told as they are done.
use crate::picture::{Picture, name};
use crate::setting::Setting;
use crate::told::{Numbers, StripsOut, Told};
use anyhow::{Result, anyhow};
use tip_array::array::Array;
use tip_array::calls::Call;
use tip_element::element::Element;
use tip_element::word::Word;
use tip_fault::fault::Fault;
use tip_memory::MemoryShelf;
use tip_solve::solve::work_len;

/// The one stripe of the story.
const STRIPE: usize = 0;

/// An array over a fault shelf over lent memory, a work buffer for its calls, and a scoreboard: what was last written
/// to each place.
#[derive(Drop)]
pub struct Story<'a> {
    rt: &'a HostRuntime,
    array: Array<Fault<MemoryShelf<'a, Word>>>,
    work: Vec<Word>,
    scoreboard: &'a mut [Word],
}

impl<'a> Story<'a> {
    /// The story that goes on from what the memory holds.
    pub fn over(rt: &'a HostRuntime, setting: &'a mut Setting) -> Result<Story<'a>> {
        let Setting {
            geometry,
            cells,
            statuses,
            scoreboard,
        } = setting;
        let work = vec![in rt.alloc(); Word::zero(); work_len(*geometry)]?;
        let memory = MemoryShelf::new(geometry, cells, statuses)?;
        Ok(Story {
            rt,
            array: Array::over(Fault::over(memory)),
            work,
            scoreboard,
        })
    }

    /// Plans the loss of a device in the middle of the next call, before its access of this number. Between calls an
    /// array keeps nothing but its shelf, so that can be taken out and put under an array again.
    pub fn plan(self, device: usize, access: u32) -> Result<Story<'a>> {
        let Story {
            rt,
            array,
            work,
            scoreboard,
        } = self;
        let mut shelf = array.into_shelf();
        shelf.plan(shelf.accesses().saturating_add(access), device)?;
        println!(rt; "plan: device {device} is lost before access {access} of the next call")?;
        Ok(Story {
            rt,
            array: Array::over(shelf),
            work,
            scoreboard,
        })
    }

    /// Begins a chapter.
    pub fn chapter(&self, title: &str) -> Result<()> {
        println!(self.rt; "\n{title}")?;
        Ok(())
    }

    /// Says what a word means.
    pub fn explain(&self, word: &str, meaning: &str) -> Result<()> {
        println!(self.rt; "* {word}: {meaning}")?;
        Ok(())
    }

    /// Shows how the strips are.
    pub fn show(&mut self) -> Result<()> {
        let picture = Picture::of(self.rt.alloc(), &mut self.array, STRIPE)?;
        println!(self.rt; "{picture}")?;
        Ok(())
    }

    /// Makes a call, and tells nothing yet.
    fn serve(&mut self, call: Call<Word>) -> Told {
        let outcome = self.array.serve(&call, &mut self.work);
        Told { call, outcome }
    }

    /// Makes a call that has to be accepted.
    fn accept(&mut self, call: Call<Word>) -> Result<()> {
        let told = self.serve(call);
        println!(self.rt; "{told}")?;
        let _answer = told.outcome?;
        Ok(())
    }

    /// Pulls a device, and shows the stripe.
    pub fn pull(&mut self, device: usize) -> Result<()> {
        self.accept(Call::Pull { device })?;
        self.show()
    }

    /// Fits a device, and shows the stripe.
    pub fn fit(&mut self, device: usize) -> Result<()> {
        self.accept(Call::Fit { device })?;
        self.show()
    }

    /// Fits all devices, and shows the stripe.
    pub fn fit_all(&mut self) -> Result<()> {
        for device in 0..=self.array.geometry().prime().number {
            self.accept(Call::Fit { device })?;
        }
        self.show()
    }

    /// Formats the array, and shows the stripe.
    pub fn format(&mut self) -> Result<()> {
        let out = StripsOut(self.array.format(&mut self.work)?);
        println!(self.rt; "format: {out}")?;
        self.show()
    }

    /// Rebuilds the stripe, and shows it.
    pub fn rebuild(&mut self) -> Result<()> {
        self.accept(Call::Rebuild { stripe: STRIPE })?;
        self.show()
    }

    /// Checks the stripe.
    pub fn check(&mut self) -> Result<()> {
        self.accept(Call::Check { stripe: STRIPE })
    }

    /// Writes a place.
    pub fn write(&mut self, place: usize, number: u64) -> Result<()> {
        let element = Word(number);
        self.accept(Call::Write {
            stripe: STRIPE,
            place,
            element,
        })?;
        if let Some(shown) = self.scoreboard.get_mut(place) {
            *shown = element;
        }
        Ok(())
    }

    /// Writes 1, 2, 3 and so on to the places, as one list of calls.
    pub fn write_all(&mut self) -> Result<()> {
        let heap = self.rt.alloc();
        for (place, element) in self.scoreboard.iter_mut().enumerate() {
            *element = Word((place as u64).saturating_add(1));
        }
        let elements = self.scoreboard.to_vec(heap)?;
        let writes = elements.iter().enumerate().map(|(place, element)| Call::Write {
            stripe: STRIPE,
            place,
            element: *element,
        });
        let calls: Vec<Call<Word>> = writes.collect(heap)?;
        let outcomes = self.array.run(heap, &calls, &mut self.work)?;
        let accepted = outcomes.iter().filter(|outcome| outcome.is_ok()).count();
        let numbers = Numbers(&elements);
        println!(self.rt; "write all places := {numbers}: {accepted} calls are accepted")?;
        Ok(())
    }

    /// Reads a place, and tells nothing yet. It has to give what was last written.
    fn read_back(&mut self, place: usize) -> Result<Word> {
        let element = self.array.read(STRIPE, place, &mut self.work)?;
        if self.scoreboard.get(place).copied() != Some(element) {
            return Err(anyhow!("place {place} does not give what was written"));
        }
        Ok(element)
    }

    /// Reads a place, and tells also how its strip is.
    pub fn read(&mut self, place: usize) -> Result<()> {
        let Word(number) = self.read_back(place)?;
        let column = self.array.geometry().locate(place)?.column;
        let state = name(self.array.state(STRIPE, column));
        println!(self.rt;
            "read place {place}: {number}, as written; its strip, of column {column}, is {state}"
        )?;
        Ok(())
    }

    /// Reads all places.
    pub fn read_all(&mut self) -> Result<()> {
        let mut elements = Vec::new(self.rt.alloc());
        for place in 0..self.array.geometry().places() {
            elements.push(self.read_back(place)?)?;
        }
        let numbers = Numbers(&elements);
        println!(self.rt; "read all places: {numbers}, as written")?;
        Ok(())
    }

    /// Reads a place, which has to be refused.
    pub fn read_in_vain(&mut self, place: usize) -> Result<()> {
        let told = self.serve(Call::Read {
            stripe: STRIPE,
            place,
        });
        println!(self.rt; "{told}")?;
        match told.outcome {
            Ok(_) => Err(anyhow!("this has to be refused")),
            Err(_) => Ok(()),
        }
    }
}
