// Which names of a row's dictionary a lawful row uses: the ids inside its leftovers and those of the schema fields that are
// present, marked in a table in one walk.
#![tactic(auto)]

mod plain;
mod present;
mod walker;

pub use walker::Walk;
