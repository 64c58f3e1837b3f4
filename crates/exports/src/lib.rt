// What programs in C and Rust call, through the static library of the crate exports_c: each operation of
// document 01 as a function of plain numbers and tables, over the proved one of the same meaning.
//
// A table is a slice; a set that comes back is an array of four words (facts) or sixteen (steps), so that
// it cannot be too short. An answer is a struct of numbers: document 01's number of a refusal and its
// place, both 0 where nothing is refused, and beside them what the operation counts. A refusal leaves
// every table and set as it was. No function has a `requires`, and the contracts cite the definitions of
// the library's own functions through specs/Answers.antt and specs/Written.antt.
//
// The row of a step has no function here: it is four words of the caller's own table of needs or sets,
// from 4 times the step number on.
//
// Stays eight parameters for a task, and its tables named in each clause: the C interface.
#![tactic(auto)]

mod answers;
mod finding;
mod lending;
mod passing;
mod reading;
mod tabling;

pub use answers::{Answer, CutsAnswer, ReachAnswer, ReadAnswer, ReplayAnswer};
pub use finding::{salgezhim_check, salgezhim_reach, salgezhim_replay};
pub use passing::{salgezhim_must_facts, salgezhim_must_steps};
pub use reading::salgezhim_read;
pub use tabling::{
    salgezhim_cuts, salgezhim_distances, salgezhim_just_before_rows, salgezhim_must_rows,
};
