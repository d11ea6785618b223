//! Kinds of element: what the cells of a stripe hold, and how elements are joined.
#![tactic(auto)]

pub mod element;
pub mod slices;
pub mod trace;
pub mod word;
