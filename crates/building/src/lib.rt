// A lawful row's document written in normal form, from the end of a room towards its front.
//
// The functions with a `requires` are inner ones: whoever calls them has had the row judged and its names numbered.
#![tactic(auto)]

mod builder;

pub use builder::Build;
