// Normal ids for the names used: the used ids of a dictionary are put in the order of their names, one for each name, and
// each used id gets the place of its name among them.
#![tactic(auto)]

mod ranks;
mod sorting;
mod tables;

pub use ranks::rank;
pub use sorting::sort;
pub use tables::{id_at, input_of, normal_of, put_id};
