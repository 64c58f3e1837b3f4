// A task: its sizes and limits, checking, the row of a step, and what taking a step asks of the tables.
//
// No public function has a `requires`. Those that can refuse answer a `Result` whose error is a
// `Refusal`, a fault of document 01's table with its place; the contracts cite specs/Check.antt,
// specs/Row.antt and specs/Walks.antt.
#![tactic(auto)]

mod checks;
mod refusal;
mod row;
mod tables;
mod task;

pub use checks::check;
pub use refusal::{Fault, Refusal};
pub use row::{Row, check_row, step_row};
pub use tables::{Sizes, Tables};
pub use task::{Limits, Task};
