//! The algebra of a stripe, as definitions and lemmas alone: columns as cyclic sequences, the rules that the columns of an
//! encoded stripe obey along its lines, and why two or three unknown columns follow from their sums.
#![tactic(auto)]
