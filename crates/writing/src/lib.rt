// A value written in normal form, from the end of a buffer towards its front: what stands behind is written first, so every
// length is known when it is needed.
#![tactic(auto)]

mod container;
mod ids;
mod offsets;
mod scalars;
mod writer;

pub use container::{array_head, object_head};
pub use ids::largest_of;
pub use scalars::copied;
pub use writer::{value, written};
