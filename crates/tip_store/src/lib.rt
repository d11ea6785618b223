//! Strips that are kept by a status byte each: what the memory shelf and the image shelf have in common.
#![tactic(auto)]

pub mod layout;
pub mod paste;
pub mod status;
