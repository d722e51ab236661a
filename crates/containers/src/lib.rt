// The shape of a container: what it has where, its children's lengths, every byte in exactly one child, and names that rise.
#![tactic(auto)]

mod children;
mod cover;
mod fields;
mod opened;
mod shape;

pub use children::{Lying, child_extent};
pub use opened::{Container, array, object};
pub use shape::{array_lies, object_lies};
