//! Arrays: the calls on a shelf, and what every run of them keeps.
#![tactic(auto)]

ghost use Rattle.tip_array.specs.Runs.{EveryRun, EveryRunOn};

pub mod array;
pub mod calls;
mod check;
mod format;
mod read;
mod rebuild;
pub mod run;
mod service;
mod write;

use tip_element::element::Element;

/// From every array that mirrors a scoreboard every run of calls is sound.
pub fn every_run_on<E: Element>()
    ensures { EveryRunOn E.zero E.join }
{}

/// From every freshly formatted array every run of calls is sound.
pub fn every_run<E: Element>()
    ensures { EveryRun E.zero E.join }
{}
