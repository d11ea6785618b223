// The chapters of the story.
use crate::picture::LEGEND;
use crate::story::Story;
use anyhow::Result;

/// A write gets and puts the cell of its place first, as its accesses 1 and 2, and then the three parity cells. This
/// access is the first after the new element was put.
const AFTER_THE_PUT: u32 = 3;

/// A read of a place whose strip is out asks that strip in vain, as its access 1, and then gets the elements of the
/// strips that are held, four each. With column 1 out, those of column 3 are accesses 10 to 13, so this one comes after
/// half of them.
const AMID_COLUMN_3: u32 = 12;

impl<'a> Story<'a> {
    /// Explains the words for strips, before the first picture of any.
    fn introduce(&self) -> Result<()> {
        self.chapter(
            "New memory, for one stripe of p = 5: columns 0 to 5, and 12 places to write.",
        )?;
        for (word, meaning) in [
            (
                "strip",
                "a column of the stripe; device 0 carries that of column 0, and so on",
            ),
            ("held", "the strip has its four elements"),
            ("blank", "the strip has no elements, and can be restored"),
            (
                "absent",
                "the strip is lost, until its device is fitted; in new memory all are",
            ),
            ("out", "blank or absent"),
            ("picture", LEGEND),
        ] {
            self.explain(word, meaning)?;
        }
        Ok(())
    }

    /// Fits all devices of new memory, and formats it.
    pub fn begin(&mut self) -> Result<()> {
        self.introduce()?;
        self.show()?;
        self.explain("fit", "puts a device in; its absent strips are then blank")?;
        self.fit_all()?;
        self.explain(
            "format",
            "each strip that is not absent is then held, with zeros",
        )?;
        self.format()
    }

    /// Writes all places, and checks the stripe.
    pub fn fill(&mut self) -> Result<()> {
        self.chapter("All places are written.")?;
        self.write_all()?;
        self.explain(
            "chain",
            "a parity and what it covers; whole if none of its strips is out",
        )?;
        self.explain(
            "check",
            "counts the whole chains, and those of them that fail: that do not join to zero",
        )?;
        self.check()
    }

    /// Loses a device in the middle of a write.
    pub fn lose_in_a_write(self) -> Result<Story<'a>> {
        self.chapter(
            "A device is lost while a write runs: the element is put, its parities are not yet.",
        )?;
        self.explain(
            "drop",
            "a strip that turns absent drops; the call goes on without it",
        )?;
        self.explain(
            "access",
            "a step of a call: an element got or put, a strip blanked or restored",
        )?;
        let mut story = self.plan(1, AFTER_THE_PUT)?;
        story.write(4, 50)?;
        story.show()?;
        story.read(4)?;
        story.check()?;
        Ok(story)
    }

    /// Loses a device in the middle of a read.
    pub fn lose_in_a_read(self) -> Result<Story<'a>> {
        self.chapter("A second is lost while a read runs, which has got half of its strip.")?;
        let mut story = self.plan(3, AMID_COLUMN_3)?;
        story.read(4)?;
        story.show()?;
        Ok(story)
    }

    /// Loses a third device, and reads and writes on.
    pub fn lose_a_third(&mut self) -> Result<()> {
        self.chapter(
            "A third is pulled. With three strips out every place can be read and written.",
        )?;
        self.explain("pull", "takes a device away; its strips drop")?;
        self.pull(0)?;
        for place in [0, 4, 10, 11] {
            self.read(place)?;
        }
        self.write(4, 0)?;
        self.read(4)
    }

    /// Loses a fourth device.
    pub fn lose_a_fourth(&mut self) -> Result<()> {
        self.chapter(
            "On a copy of the memory a fourth is pulled. Now only what is held can be read.",
        )?;
        self.pull(2)?;
        self.read_in_vain(4)?;
        self.read(5)
    }

    /// Gets all strips back, and reads all places.
    pub fn mend(&mut self) -> Result<()> {
        self.chapter("In the memory itself three strips are out, and all come back.")?;
        self.show()?;
        for device in [0, 1, 3] {
            self.fit(device)?;
        }
        self.read(4)?;
        self.explain(
            "rebuild",
            "restores each blank strip, solved from those that are held",
        )?;
        self.rebuild()?;
        self.check()?;
        self.read_all()
    }
}
