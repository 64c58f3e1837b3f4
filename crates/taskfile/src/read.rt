// The reader: a task out of its file.
ghost use Rattle.std.specs.Prelude.{◌≡◌, length};
ghost use Rattle.taskfile.specs.Judging.{file_verdict};
ghost use Rattle.taskfile.specs.Meaning.{file_tables};
ghost use Rattle.taskfile.specs.Answer.{room_of, fits_in, reading_of, read_into};

use crate::cursor::Room;
use crate::fill::{StepTables, facts_named, fill_steps};
use crate::format::{Part, Record};
use crate::iter::Records;
use crate::judge::judge_file;
use task::{Refusal, Sizes};

/// Reads a task into the tables lent: needs, sets and clears with four words a step, costs with one
/// number a step, start and goal with four words. What is lent beyond the task stays as it was, and so
/// does everything where the file is refused.
// Stays six slices: of a struct of them a seventh clause would have to say that each stays the caller's.
pub fn read_task(
    file: &[u8],
    needs: &mut [u64],
    sets: &mut [u64],
    clears: &mut [u64],
    costs: &mut [u32],
    start: &mut [u64],
    goal: &mut [u64],
) -> Result<Sizes, Refusal>
    ensures answer { result ≡ reading_of (room_of (length needs.old) (length sets.old) (length clears.old) (length costs.old) (length start.old) (length goal.old)) file.now }
    ensures needs { needs.new ≡ read_into (file_verdict (fits_in (room_of (length needs.old) (length sets.old) (length clears.old) (length costs.old) (length start.old) (length goal.old))) file.now) (file_tables file.now).needs needs.old }
    ensures sets { sets.new ≡ read_into (file_verdict (fits_in (room_of (length needs.old) (length sets.old) (length clears.old) (length costs.old) (length start.old) (length goal.old))) file.now) (file_tables file.now).sets sets.old }
    ensures clears { clears.new ≡ read_into (file_verdict (fits_in (room_of (length needs.old) (length sets.old) (length clears.old) (length costs.old) (length start.old) (length goal.old))) file.now) (file_tables file.now).clears clears.old }
    ensures costs { costs.new ≡ read_into (file_verdict (fits_in (room_of (length needs.old) (length sets.old) (length clears.old) (length costs.old) (length start.old) (length goal.old))) file.now) (file_tables file.now).costs costs.old }
    ensures start { start.new ≡ read_into (file_verdict (fits_in (room_of (length needs.old) (length sets.old) (length clears.old) (length costs.old) (length start.old) (length goal.old))) file.now) (file_tables file.now).start start.old }
    ensures goal { goal.new ≡ read_into (file_verdict (fits_in (room_of (length needs.old) (length sets.old) (length clears.old) (length costs.old) (length start.old) (length goal.old))) file.now) (file_tables file.now).goal goal.old }
{
    let room = Room {
        needs: needs.len(),
        sets: sets.len(),
        clears: clears.len(),
        costs: costs.len(),
        start: start.len(),
        goal: goal.len(),
    };
    judge_file(file, room)?;
    let mut records = Records::new(file);
    let Some(first) = records.next() else {
        unreachable!("a sound file has records");
    };
    let Record::Head(facts, steps) = first else {
        unreachable!("the first of them is a head");
    };
    fill_steps(
        records,
        &mut StepTables {
            needs,
            sets,
            clears,
            costs,
        },
    );
    facts_named(records, Part::Start).put_row(start, 0);
    facts_named(records, Part::Goal).put_row(goal, 0);
    Ok(Sizes {
        facts: usize::from(facts),
        steps: usize::from(steps),
    })
}
