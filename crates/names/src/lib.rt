// The names of a normal dictionary, and its metadata read back: a crate of laws, with no code of its own.
#![tactic(auto)]
