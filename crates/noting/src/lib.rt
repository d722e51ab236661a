// Where the places of a list stand, and the members of an object in the order of their normal ids, noted in tables: a row's
// places can be walked only forwards, and a value is written from its end.
#![tactic(auto)]

mod elements;
mod members;
mod spots;

pub use elements::note_elements;
pub use members::note_fields;
pub use spots::spot;
