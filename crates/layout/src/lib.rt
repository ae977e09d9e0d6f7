// Layouts in numbers: checked, counted, and written out as boxes.
#![tactic(auto)]

pub mod boxes;
pub mod change;
pub mod check;
pub mod count;
pub mod law;
pub mod layout;
pub mod limit;
pub mod node;
pub mod nodes;
pub mod number;
pub mod rect;
pub mod refusal;
pub mod write_out;

pub use check::check_layout;
pub use write_out::layout_boxes;
