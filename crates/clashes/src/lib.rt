// Rule c: whether a leftover has a name that its node names.
#![tactic(auto)]

mod merging;

pub use merging::clash;
