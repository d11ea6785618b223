// What the story is set in.
use std::alloc::Global;
use tip_code::geometry::Geometry;
use tip_element::element::Element;
use tip_element::word::Word;

/// The prime of the story.
const PRIME: usize = 5;

/// The sizes of an array, the memory that its shelf is lent, and a scoreboard.
#[derive(Clone, Drop)]
pub struct Setting {
    /// The sizes.
    pub geometry: Geometry,
    /// The elements of the strips, one strip after the other.
    pub cells: Vec<Word>,
    /// How each strip is.
    pub statuses: Vec<u8>,
    /// What was last written to each place.
    pub scoreboard: Vec<Word>,
}

impl Setting {
    /// One stripe, in memory that holds zeros, as new memory does.
    pub fn new(heap: Global) -> anyhow::Result<Setting> {
        let geometry = Geometry::new(PRIME, 1)?;
        let columns = geometry.prime().number + 1;
        Ok(Setting {
            geometry,
            cells: vec![in heap; Word::zero(); geometry.cells()]?,
            statuses: vec![in heap; 0; columns]?,
            scoreboard: vec![in heap; Word::zero(); geometry.places()]?,
        })
    }
}
