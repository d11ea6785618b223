//! The array code: the sizes of an array, the cells of a stripe, and its encoding.
#![tactic(auto)]

pub mod chain;
pub mod encode;
pub mod geometry;
mod joins;
pub mod places;
mod placing;
pub mod prime;
pub mod stop;
pub mod stripe;
