// The report on a task file: what is found of the task, line after line.
ghost use Rattle.std.specs.Prelude.{◌≡◌, ◌*◌, ◌≤◌, length, Ok};
ghost use Rattle.task.specs.Lent.{lent};
ghost use Rattle.must.specs.Answer.{pass_verdict};
ghost use Rattle.taskfile.specs.Meaning.{file_tables};
ghost use Rattle.report.specs.Report.{steps_room, round_lines};
ghost use Rattle.report.specs.Workers.{first_steps, report_verdict, task_lines};
ghost use Rattle.report.specs.Writing.{Writes, WritesUnless};

use crate::STEPS;
use crate::text::Page;
use sets::{Facts, Steps};
use task::{Refusal, Tables};

/// Writes what is found of the task that a file stands for; nothing where the file or the task is
/// refused.
pub(crate) fn file_report(file: &[u8], page: &mut Page<'_>) -> Result<(), Refusal>
    ensures verdict { result ≡ report_verdict file.now }
    ensures written { WritesUnless result (task_lines (file_tables file.now)) page.old page.new }
{
    // Stay arrays: fixed memory, no heap.
    let mut needs = [0; Facts::WORDS * STEPS];
    let mut sets = [0; Facts::WORDS * STEPS];
    let mut clears = [0; Facts::WORDS * STEPS];
    let mut costs = [0; STEPS];
    let mut start = [0; Facts::WORDS];
    let mut goal = [0; Facts::WORDS];
    let sizes = taskfile::read_task(
        file,
        &mut needs,
        &mut sets,
        &mut clears,
        &mut costs,
        &mut start,
        &mut goal,
    )?;
    let room = Tables {
        sizes,
        needs: &needs,
        sets: &sets,
        clears: &clears,
        costs: &costs,
        start: &start,
        goal: &goal,
    };
    task_report(first_steps(room), page)
}

// The tables of a task that stands at the beginning of tables with room for more steps.
fn first_steps(room: Tables<'_>) -> Tables<'_>
    requires needs { 4 * room.sizes.steps ≤ length room.needs.now }
    requires sets { 4 * room.sizes.steps ≤ length room.sets.now }
    requires clears { 4 * room.sizes.steps ≤ length room.clears.now }
    requires costs { room.sizes.steps ≤ length room.costs.now }
    ensures { lent result ≡ first_steps (lent room.entry) }
{
    let words = Facts::WORDS * room.sizes.steps;
    Tables {
        needs: &room.needs[..words],
        sets: &room.sets[..words],
        clears: &room.clears[..words],
        costs: &room.costs[..room.sizes.steps],
        ..room
    }
}

// Writes what is found of a task of at most STEPS steps; nothing where it is refused.
fn task_report(tables: Tables<'_>, page: &mut Page<'_>) -> Result<(), Refusal>
    requires { tables.sizes.steps ≤ steps_room }
    ensures verdict { result ≡ pass_verdict (lent tables.entry) }
    ensures written { WritesUnless result (task_lines (lent tables.entry)) page.old page.new }
{
    let passed = must::must_pass(tables)?;
    let reached = reach::reach(tables)?;
    let taken = must::must_take(tables)?;
    page.task_lines(tables.sizes, reached.set, passed, taken);
    rounds_report(tables, page);
    Ok(())
}

// Writes the line of each round, and the floor, of a task that is not refused. Beside `task_report`, so
// that its tables and those of the must-pass steps can lie in the same place.
fn rounds_report(tables: Tables<'_>, page: &mut Page<'_>)
    requires steps { tables.sizes.steps ≤ steps_room }
    requires fine { pass_verdict (lent tables) ≡ Ok tt }
    ensures { Writes (round_lines (lent tables.entry)) page.old page.new }
{
    let mut rows = [0; Steps::WORDS * STEPS];
    let mut prices = [0; STEPS];
    let mut left = [0; STEPS];
    let Ok(cutting) = cuts::cuts(tables, &mut rows, &mut prices, &mut left) else {
        unreachable!("with this room, cuts refuse what must-pass refuses");
    };
    page.cut_lines(&rows, &prices[..cutting.rounds]);
    // Stays a cast: usize has no From<u32>, and `try_from(..).unwrap()` is no plainer.
    page.line(b"floor", &[cutting.floor as usize]);
}
