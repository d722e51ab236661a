// A row judged under its schema: does it parse (6), does it keep rules a to f (7). One walk judges both.
#![tactic(auto)]

mod judging;
mod opened;
mod quick;
mod walker;

pub use judging::{RowParts, judge};
pub use opened::OpenRow;
