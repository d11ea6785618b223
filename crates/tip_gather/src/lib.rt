//! What the layers above need of any shelf: how large it is, which strips of a stripe are out, and a stripe gathered into a buffer.
#![tactic(auto)]

pub mod columns;
pub mod gather;
pub mod sizes;
