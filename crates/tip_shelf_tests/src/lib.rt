//! Tests of the shelves: single calls and long lists of calls, against tables and against a model that writes the rules out anew.
#![tactic(auto)]

#[cfg(test)]
mod beyond;
#[cfg(test)]
mod bytes;
#[cfg(test)]
mod calls;
#[cfg(test)]
mod largest;
#[cfg(test)]
mod lengths;
#[cfg(test)]
mod lists;
#[cfg(test)]
mod losses;
#[cfg(test)]
mod model;
#[cfg(test)]
mod transitions;
#[cfg(test)]
mod trials;
