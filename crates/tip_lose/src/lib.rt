//! Losing columns of a stripe and solving them, as `tipsolve` shows it.
#![tactic(auto)]

pub mod request;
pub mod table;
#[cfg(test)]
mod tests;
pub mod trial;
