// The static library for programs in C and Rust: the functions of `exports` under C's calling convention,
// each with the same clauses.
//
// A table is a slice, which C passes as a pointer and a length in entries; a set that comes back is an
// array of four words (facts) or sixteen (steps), which C passes as a pointer alone. No function has a
// `requires`.
//
// Stays eight parameters for a task, and its tables named in each clause: the C interface.
#![tactic(auto)]

ghost use Rattle.std.specs.Prelude.{◌≡◌, length};
ghost use Rattle.task.specs.Tables.{tables, view};
ghost use Rattle.task.specs.Check.{verdict_of};
ghost use Rattle.reach.specs.Answer.{reached_of};
ghost use Rattle.replay.specs.Replay.{replayed_of};
ghost use Rattle.distance.specs.Answer.{distances_verdict, distances_written};
ghost use Rattle.must.specs.Must.{must_row, just_before};
ghost use Rattle.must.specs.Answer.{rows_verdict, rows_written, pass_verdict, passed_of, taken_of};
ghost use Rattle.cuts.specs.Answer.{cuts_verdict, cutting_by, cuts_written, prices_written, left_written};
ghost use Rattle.taskfile.specs.Judging.{file_verdict};
ghost use Rattle.taskfile.specs.Meaning.{file_tables};
ghost use Rattle.taskfile.specs.Answer.{room_of, fits_in, reading_of, read_into};
ghost use Rattle.exports.specs.Answers.{answer_of, reach_answer_of, replay_answer_of, cuts_answer_of, read_answer_of};
ghost use Rattle.exports.specs.Written.{reach_written, passed_written, taken_written};

use exports::{Answer, CutsAnswer, ReachAnswer, ReadAnswer, ReplayAnswer};

/// What is wrong with a task's sizes and tables, if anything. Refusals 1 to 5.
#[unsafe(no_mangle)]
pub extern "C" fn salgezhim_check(
    facts: usize,
    steps: usize,
    needs: &[u64],
    sets: &[u64],
    clears: &[u64],
    costs: &[u32],
    start: &[u64],
    goal: &[u64],
) -> Answer
    ensures { result ≡ answer_of (verdict_of (tables facts steps needs.now sets.now clears.now costs.now start.now goal.now)) }
{
    exports::salgezhim_check(facts, steps, needs, sets, clears, costs, start, goal)
}

/// The facts within reach, clearing ignored, and the number of passes. Refusals 1 to 5.
#[unsafe(no_mangle)]
pub extern "C" fn salgezhim_reach(
    facts: usize,
    steps: usize,
    needs: &[u64],
    sets: &[u64],
    clears: &[u64],
    costs: &[u32],
    start: &[u64],
    goal: &[u64],
    set: &mut [u64; 4],
) -> ReachAnswer
    ensures answer { result ≡ reach_answer_of (reached_of (tables facts steps needs.now sets.now clears.now costs.now start.now goal.now)) }
    ensures set { set.new ≡ reach_written (reached_of (tables facts steps needs.now sets.now clears.now costs.now start.now goal.now)) set.old }
{
    exports::salgezhim_reach(facts, steps, needs, sets, clears, costs, start, goal, set)
}

/// What becomes of a walk, given by the numbers of its steps. Refusals 1 to 5, 8 and 9.
#[unsafe(no_mangle)]
pub extern "C" fn salgezhim_replay(
    facts: usize,
    steps: usize,
    needs: &[u64],
    sets: &[u64],
    clears: &[u64],
    costs: &[u32],
    start: &[u64],
    goal: &[u64],
    walk: &[u16],
) -> ReplayAnswer
    ensures { result ≡ replay_answer_of (replayed_of (tables facts steps needs.now sets.now clears.now costs.now start.now goal.now) walk.now) }
{
    exports::salgezhim_replay(facts, steps, needs, sets, clears, costs, start, goal, walk)
}

/// Writes the distance of each fact into the first n numbers lent. Refusals 1 to 6.
#[unsafe(no_mangle)]
pub extern "C" fn salgezhim_distances(
    facts: usize,
    steps: usize,
    needs: &[u64],
    sets: &[u64],
    clears: &[u64],
    costs: &[u32],
    start: &[u64],
    goal: &[u64],
    out: &mut [u32],
) -> Answer
    ensures answer { result ≡ answer_of (distances_verdict (tables facts steps needs.now sets.now clears.now costs.now start.now goal.now) (length out.old)) }
    ensures table { out.new ≡ distances_written (tables facts steps needs.now sets.now clears.now costs.now start.now goal.now) out.old }
{
    exports::salgezhim_distances(facts, steps, needs, sets, clears, costs, start, goal, out)
}

/// Writes the must row of each fact, four words a fact, into the first 4n words lent. Refusals 1 to 6.
#[unsafe(no_mangle)]
pub extern "C" fn salgezhim_must_rows(
    facts: usize,
    steps: usize,
    needs: &[u64],
    sets: &[u64],
    clears: &[u64],
    costs: &[u32],
    start: &[u64],
    goal: &[u64],
    rows: &mut [u64],
) -> Answer
    ensures answer { result ≡ answer_of (rows_verdict (tables facts steps needs.now sets.now clears.now costs.now start.now goal.now) (length rows.old)) }
    ensures table { rows.new ≡ rows_written (rows_verdict (tables facts steps needs.now sets.now clears.now costs.now start.now goal.now) (length rows.old)) facts (must_row (view (tables facts steps needs.now sets.now clears.now costs.now start.now goal.now))) rows.old }
{
    exports::salgezhim_must_rows(facts, steps, needs, sets, clears, costs, start, goal, rows)
}

/// Writes the just-before row of each fact, four words a fact, into the first 4n words lent. Refusals
/// 1 to 6.
#[unsafe(no_mangle)]
pub extern "C" fn salgezhim_just_before_rows(
    facts: usize,
    steps: usize,
    needs: &[u64],
    sets: &[u64],
    clears: &[u64],
    costs: &[u32],
    start: &[u64],
    goal: &[u64],
    rows: &mut [u64],
) -> Answer
    ensures answer { result ≡ answer_of (rows_verdict (tables facts steps needs.now sets.now clears.now costs.now start.now goal.now) (length rows.old)) }
    ensures table { rows.new ≡ rows_written (rows_verdict (tables facts steps needs.now sets.now clears.now costs.now start.now goal.now) (length rows.old)) facts (just_before (view (tables facts steps needs.now sets.now clears.now costs.now start.now goal.now))) rows.old }
{
    exports::salgezhim_just_before_rows(facts, steps, needs, sets, clears, costs, start, goal, rows)
}

/// Writes the cut of each round, sixteen words each, its cost, and the costs left after all rounds.
/// Refusals 1 to 7.
#[unsafe(no_mangle)]
pub extern "C" fn salgezhim_cuts(
    facts: usize,
    steps: usize,
    needs: &[u64],
    sets: &[u64],
    clears: &[u64],
    costs: &[u32],
    start: &[u64],
    goal: &[u64],
    rows: &mut [u64],
    prices: &mut [u32],
    left: &mut [u32],
) -> CutsAnswer
    ensures answer { result ≡ cuts_answer_of (cutting_by (cuts_verdict (tables facts steps needs.now sets.now clears.now costs.now start.now goal.now) (length rows.old) (length prices.old) (length left.old)) (view (tables facts steps needs.now sets.now clears.now costs.now start.now goal.now))) }
    ensures rows { rows.new ≡ cuts_written (cuts_verdict (tables facts steps needs.now sets.now clears.now costs.now start.now goal.now) (length rows.old) (length prices.old) (length left.old)) (view (tables facts steps needs.now sets.now clears.now costs.now start.now goal.now)) rows.old }
    ensures prices { prices.new ≡ prices_written (cuts_verdict (tables facts steps needs.now sets.now clears.now costs.now start.now goal.now) (length rows.old) (length prices.old) (length left.old)) (view (tables facts steps needs.now sets.now clears.now costs.now start.now goal.now)) prices.old }
    ensures left { left.new ≡ left_written (cuts_verdict (tables facts steps needs.now sets.now clears.now costs.now start.now goal.now) (length rows.old) (length prices.old) (length left.old)) (view (tables facts steps needs.now sets.now clears.now costs.now start.now goal.now)) left.old }
{
    exports::salgezhim_cuts(
        facts, steps, needs, sets, clears, costs, start, goal, rows, prices, left,
    )
}

/// The facts that every way to the goal passes. Refusals 1 to 5, and 7 where there is no way.
#[unsafe(no_mangle)]
pub extern "C" fn salgezhim_must_facts(
    facts: usize,
    steps: usize,
    needs: &[u64],
    sets: &[u64],
    clears: &[u64],
    costs: &[u32],
    start: &[u64],
    goal: &[u64],
    set: &mut [u64; 4],
) -> Answer
    ensures answer { result ≡ answer_of (pass_verdict (tables facts steps needs.now sets.now clears.now costs.now start.now goal.now)) }
    ensures set { set.new ≡ passed_written (passed_of (tables facts steps needs.now sets.now clears.now costs.now start.now goal.now)) set.old }
{
    exports::salgezhim_must_facts(facts, steps, needs, sets, clears, costs, start, goal, set)
}

/// The steps that every way to the goal takes. Refusals 1 to 5, and 7 where there is no way.
#[unsafe(no_mangle)]
pub extern "C" fn salgezhim_must_steps(
    facts: usize,
    steps: usize,
    needs: &[u64],
    sets: &[u64],
    clears: &[u64],
    costs: &[u32],
    start: &[u64],
    goal: &[u64],
    set: &mut [u64; 16],
) -> Answer
    ensures answer { result ≡ answer_of (pass_verdict (tables facts steps needs.now sets.now clears.now costs.now start.now goal.now)) }
    ensures set { set.new ≡ taken_written (taken_of (tables facts steps needs.now sets.now clears.now costs.now start.now goal.now)) set.old }
{
    exports::salgezhim_must_steps(facts, steps, needs, sets, clears, costs, start, goal, set)
}

/// Reads a task into the tables lent: 4m words of needs, sets and clears, m costs, 4 words of start and
/// goal. Refusals 1, 2, 5, 6 and 11 to 16, at offsets of the file.
#[unsafe(no_mangle)]
pub extern "C" fn salgezhim_read(
    file: &[u8],
    needs: &mut [u64],
    sets: &mut [u64],
    clears: &mut [u64],
    costs: &mut [u32],
    start: &mut [u64],
    goal: &mut [u64],
) -> ReadAnswer
    ensures answer { result ≡ read_answer_of (reading_of (room_of (length needs.old) (length sets.old) (length clears.old) (length costs.old) (length start.old) (length goal.old)) file.now) }
    ensures needs { needs.new ≡ read_into (file_verdict (fits_in (room_of (length needs.old) (length sets.old) (length clears.old) (length costs.old) (length start.old) (length goal.old))) file.now) (file_tables file.now).needs needs.old }
    ensures sets { sets.new ≡ read_into (file_verdict (fits_in (room_of (length needs.old) (length sets.old) (length clears.old) (length costs.old) (length start.old) (length goal.old))) file.now) (file_tables file.now).sets sets.old }
    ensures clears { clears.new ≡ read_into (file_verdict (fits_in (room_of (length needs.old) (length sets.old) (length clears.old) (length costs.old) (length start.old) (length goal.old))) file.now) (file_tables file.now).clears clears.old }
    ensures costs { costs.new ≡ read_into (file_verdict (fits_in (room_of (length needs.old) (length sets.old) (length clears.old) (length costs.old) (length start.old) (length goal.old))) file.now) (file_tables file.now).costs costs.old }
    ensures start { start.new ≡ read_into (file_verdict (fits_in (room_of (length needs.old) (length sets.old) (length clears.old) (length costs.old) (length start.old) (length goal.old))) file.now) (file_tables file.now).start start.old }
    ensures goal { goal.new ≡ read_into (file_verdict (fits_in (room_of (length needs.old) (length sets.old) (length clears.old) (length costs.old) (length start.old) (length goal.old))) file.now) (file_tables file.now).goal goal.old }
{
    exports::salgezhim_read(file, needs, sets, clears, costs, start, goal)
}
