// A document's normal value cut along a schema and written as the outermost place of a row, from the end of a room towards its
// front.
//
// The functions with a `requires` are inner ones: whoever calls them has written the normal form and had the schema judged.
#![tactic(auto)]

mod cutter;
mod missing;
mod passing;

pub use cutter::{Basis, place};
