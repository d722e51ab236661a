// Values judged under a dictionary.
#![tactic(auto)]

mod walker;

pub use walker::{lawful, value};
