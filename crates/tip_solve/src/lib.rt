//! Solving lost columns: the whole stripe from any p - 2 of its columns.
#![tactic(auto)]

mod buffer;
mod recover;
mod runs;
pub mod solve;
mod sought;
mod sums;
mod system;
mod walk;
