// Reading a task file.
ghost use Rattle.std.specs.Prelude.{◌≡◌, length};
ghost use Rattle.taskfile.specs.Judging.{file_verdict};
ghost use Rattle.taskfile.specs.Meaning.{file_tables};
ghost use Rattle.taskfile.specs.Answer.{room_of, fits_in, reading_of, read_into};
ghost use Rattle.exports.specs.Answers.{read_answer_of};

use crate::answers::ReadAnswer;

/// Reads a task into the tables lent: 4m words of needs, sets and clears, m costs, 4 words of start and
/// goal. Refusals 1, 2, 5, 6 and 11 to 16, at offsets of the file.
pub fn salgezhim_read(
    file: &[u8],
    needs: &mut [u64],
    sets: &mut [u64],
    clears: &mut [u64],
    costs: &mut [u32],
    start: &mut [u64],
    goal: &mut [u64],
) -> ReadAnswer
    ensures answer { result ≡ read_answer_of (reading_of (room_of (length needs.old) (length sets.old) (length clears.old) (length costs.old) (length start.old) (length goal.old)) file.now) }
    ensures needs { needs.new ≡ read_into (file_verdict (fits_in (room_of (length needs.old) (length sets.old) (length clears.old) (length costs.old) (length start.old) (length goal.old))) file.now) (file_tables file.now).needs needs.old }
    ensures sets { sets.new ≡ read_into (file_verdict (fits_in (room_of (length needs.old) (length sets.old) (length clears.old) (length costs.old) (length start.old) (length goal.old))) file.now) (file_tables file.now).sets sets.old }
    ensures clears { clears.new ≡ read_into (file_verdict (fits_in (room_of (length needs.old) (length sets.old) (length clears.old) (length costs.old) (length start.old) (length goal.old))) file.now) (file_tables file.now).clears clears.old }
    ensures costs { costs.new ≡ read_into (file_verdict (fits_in (room_of (length needs.old) (length sets.old) (length clears.old) (length costs.old) (length start.old) (length goal.old))) file.now) (file_tables file.now).costs costs.old }
    ensures start { start.new ≡ read_into (file_verdict (fits_in (room_of (length needs.old) (length sets.old) (length clears.old) (length costs.old) (length start.old) (length goal.old))) file.now) (file_tables file.now).start start.old }
    ensures goal { goal.new ≡ read_into (file_verdict (fits_in (room_of (length needs.old) (length sets.old) (length clears.old) (length costs.old) (length start.old) (length goal.old))) file.now) (file_tables file.now).goal goal.old }
{
    taskfile::read_task(file, needs, sets, clears, costs, start, goal).into()
}
