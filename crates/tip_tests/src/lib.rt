//! Tests of the library on examples: against its rules as `reference` writes them out anew, and of solving also against the encoder
//! and against an elimination.
#![tactic(auto)]

#[cfg(test)]
mod cells;
#[cfg(test)]
mod chains;
#[cfg(test)]
mod columns;
#[cfg(test)]
mod covers;
#[cfg(test)]
mod elements;
#[cfg(test)]
mod elimination;
#[cfg(test)]
mod encoding;
#[cfg(test)]
mod examples;
#[cfg(test)]
mod losses;
#[cfg(test)]
mod reference;
#[cfg(test)]
mod refusals;
#[cfg(test)]
mod sizes;
#[cfg(test)]
mod stripes;
