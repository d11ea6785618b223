// What lies in the buffers of a shelf.
use crate::samples::{Sample, filled};
use crate::shape::Shape;
use std::alloc::{AllocError, Global};

/// The buffers of a memory shelf: the cells have elements that differ.
#[derive(Drop)]
pub struct Store<E> {
    pub cells: Vec<E>,
    pub statuses: Vec<u8>,
}

impl<E: Sample> Store<E> {
    /// The store with these status bytes.
    pub fn with(heap: Global, shape: Shape, statuses: Vec<u8>) -> Result<Store<E>, AllocError> {
        let mut cells = Vec::new(heap);
        for number in 0..shape.stripes.saturating_mul(shape.cells()) as u64 {
            cells.push(E::of(number.wrapping_mul(0x123456789abcdef1).wrapping_add(1)))?;
        }
        Ok(Store { cells, statuses })
    }

    /// The store whose strips are all blank.
    pub fn blank(heap: Global, shape: Shape) -> Result<Store<E>, AllocError> {
        let strips = shape.stripes.saturating_mul(shape.columns());
        Store::with(heap, shape, filled(heap, 1, strips)?)
    }
}

/// The bytes of an image with these status bytes. The words have bytes that differ.
pub fn image(heap: Global, shape: Shape, statuses: &[u8]) -> Result<Vec<u8>, AllocError> {
    let mut bytes = Vec::new(heap);
    for (strip, status) in (0u64..).zip(statuses) {
        bytes.push(*status)?;
        for row in 0..shape.rows() as u64 {
            let word = strip
                .wrapping_mul(64)
                .wrapping_add(row)
                .wrapping_mul(0x123456789abcdef1);
            bytes.extend_from_slice(&word.to_be_bytes())?;
        }
    }
    Ok(bytes)
}
