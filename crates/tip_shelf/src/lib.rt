//! Shelves: what every store of columns means, and what its calls do.
#![tactic(auto)]

pub mod borrowed;
pub mod shelf;
