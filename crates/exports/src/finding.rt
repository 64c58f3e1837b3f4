// Checking a task, what is within reach, and replaying a walk.
ghost use Rattle.std.specs.Prelude.{◌≡◌};
ghost use Rattle.task.specs.Tables.{tables};
ghost use Rattle.task.specs.Check.{verdict_of};
ghost use Rattle.reach.specs.Answer.{reached_of};
ghost use Rattle.replay.specs.Replay.{replayed_of};
ghost use Rattle.exports.specs.Answers.{answer_of, reach_answer_of, replay_answer_of};
ghost use Rattle.exports.specs.Written.{reach_written};

use crate::answers;
use crate::answers::{Answer, ReachAnswer, ReplayAnswer};
use crate::lending::tables_of;

/// What is wrong with a task's sizes and tables, if anything. Refusals 1 to 5.
pub fn salgezhim_check(
    facts: usize,
    steps: usize,
    needs: &[u64],
    sets: &[u64],
    clears: &[u64],
    costs: &[u32],
    start: &[u64],
    goal: &[u64],
) -> Answer
    ensures { result ≡ answer_of (verdict_of (tables facts steps needs.now sets.now clears.now costs.now start.now goal.now)) }
{
    task::check(tables_of(facts, steps, needs, sets, clears, costs, start, goal)).into()
}

/// The facts within reach, clearing ignored, and the number of passes. Refusals 1 to 5.
pub fn salgezhim_reach(
    facts: usize,
    steps: usize,
    needs: &[u64],
    sets: &[u64],
    clears: &[u64],
    costs: &[u32],
    start: &[u64],
    goal: &[u64],
    set: &mut [u64; 4],
) -> ReachAnswer
    ensures answer { result ≡ reach_answer_of (reached_of (tables facts steps needs.now sets.now clears.now costs.now start.now goal.now)) }
    ensures set { set.new ≡ reach_written (reached_of (tables facts steps needs.now sets.now clears.now costs.now start.now goal.now)) set.old }
{
    let reached = reach::reach(tables_of(facts, steps, needs, sets, clears, costs, start, goal));
    answers::write_set(reached.map(|reached| reached.set), set);
    reached.into()
}

/// What becomes of a walk, given by the numbers of its steps. Refusals 1 to 5, 8 and 9.
pub fn salgezhim_replay(
    facts: usize,
    steps: usize,
    needs: &[u64],
    sets: &[u64],
    clears: &[u64],
    costs: &[u32],
    start: &[u64],
    goal: &[u64],
    walk: &[u16],
) -> ReplayAnswer
    ensures { result ≡ replay_answer_of (replayed_of (tables facts steps needs.now sets.now clears.now costs.now start.now goal.now) walk.now) }
{
    let tables = tables_of(facts, steps, needs, sets, clears, costs, start, goal);
    replay::replay(tables, walk).into()
}
