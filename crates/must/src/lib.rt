// What no way to the goal does without: must rows, must-pass facts and steps, just-before rows.
//
// No public function has a `requires`; each checks the task first. The contracts cite
// specs/Answer.antt, which gives the answers by the definitions of specs/Must.antt;
// proofs/Demand2.antt says what these mean for ways.
#![tactic(auto)]

mod before;
mod labels;
mod passing;
mod rows;
mod table;
mod taking;

pub use before::just_before_rows;
pub use passing::{goal_union, must_pass};
pub use rows::must_rows;
pub use taking::must_take;
