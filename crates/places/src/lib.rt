// The places of a row, each by itself: its frames, its leftover's rules a to d, rule f, and verdicts put together. The walk
// through them is in `rows`.
#![tactic(auto)]

mod frame;
mod halves;
mod leftovers;
mod parts;
mod rules;
mod verdicts;

pub use frame::place_frame;
pub use halves::row_halves;
pub use leftovers::{alone, beside};
pub use parts::{Parts, split};
pub use rules::nameless;
pub use verdicts::{Verdict, broken_if, parsed, worse};
