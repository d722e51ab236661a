// What crosses to C: the word of each answer (`specs/Boundary.antt`), the sides of a box (`specs/BoxParts.antt`) and what a
// cell holds (`specs/CellParts.antt`).
#![tactic(auto)]

mod answers;
mod boxes;
mod cells;

pub use answers::{checked_word, document_word, found_word, row_word};
pub use boxes::{Side, box_word, side_word};
pub use cells::{cell_word, first_word, second_word};
