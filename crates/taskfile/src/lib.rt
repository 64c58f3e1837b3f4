// The task file: what its records are, whether a file is sound, and the task that it stands for.
//
// No public function has a `requires`. A file is judged from its first record to its last before any
// table is touched. The contracts cite specs/Answer.antt; specs/Sound.antt says without a judge what
// a sound file is.
#![tactic(auto)]

mod cursor;
mod fill;
mod format;
mod iter;
mod judge;
mod kind;
mod one_record;
mod read;

pub use cursor::{Cursor, Room};
pub use format::{Part, Record, record_at};
pub use judge::{judge_file, judge_next};
pub use read::read_task;
