// Kinds of element with many samples, and runs of elements.
use std::alloc::{AllocError, Global};
use std::fmt::Debug;
use std::process::Abort;
use tip_element::element::Element;
use tip_element::trace::Trace;
use tip_element::word::Word;

/// A kind of element that has one for each number.
pub trait Sample: Element + PartialEq + Debug {
    /// The element of a number.
    fn of(number: u64) -> Self;
}

impl Sample for Word {
    fn of(number: u64) -> Word {
        Word(number)
    }
}

impl Sample for Trace {
    fn of(number: u64) -> Trace {
        Trace {
            low: number,
            high: number.wrapping_mul(0x9e3779b97f4a7c15),
        }
    }
}

/// So many times the same item.
pub fn filled<T: Copy>(heap: Global, item: T, count: usize) -> Result<Vec<T>, AllocError> {
    let mut all = Vec::new(heap);
    for _ in 0..count {
        all.push(item)?;
    }
    Ok(all)
}

/// Writes an item at an index, where there is one.
pub fn set<T: Copy>(items: &mut [T], index: usize, item: T) {
    if index < items.len() {
        items[index] = item;
    }
}

/// Two runs are the same, item by item.
pub fn check_same<T: PartialEq + Debug>(rt: &impl Abort, what: &str, got: &[T], wanted: &[T]) {
    assert_eq!(rt; got.len(), wanted.len(), "{what}");
    for (index, (a, b)) in got.iter().zip(wanted).enumerate() {
        assert!(rt; a == b, "{what}, index {index}: {a:?} in place of {b:?}");
    }
}
