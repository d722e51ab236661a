// Paths: an object's field by its name, and find.
#![tactic(auto)]

mod finding;
mod path;
mod places;

pub use finding::find;
pub use path::path_good;
pub use places::{element_at, field_at};
