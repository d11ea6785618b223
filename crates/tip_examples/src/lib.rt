//! Worked examples of the array code, as one proved table.
#![tactic(auto)]

ghost use Rattle.tip_examples.specs.Worked.{Worked};

/// Does nothing: its contract is the table.
pub fn worked_examples()
    ensures { Worked }
{}
