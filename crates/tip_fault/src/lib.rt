//! The fault shelf: a layer over any serviced shelf that loses devices as planned, for trying out losses.
#![tactic(auto)]

pub mod fault;
pub mod losses;
