// Schemas: a lent one judged, and a good one's nodes and fields handed out by position. The schema stays bytes.
#![tactic(auto)]

mod framing;
mod judge;
mod readers;

pub use framing::{frame_end, tagged_within};
pub use judge::good;
pub use readers::{Kind, field_name, field_node, kind_at, next_frame};
