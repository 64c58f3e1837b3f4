// Must-pass facts and steps.
ghost use Rattle.std.specs.Prelude.{◌≡◌};
ghost use Rattle.task.specs.Tables.{tables};
ghost use Rattle.must.specs.Answer.{pass_verdict, passed_of, taken_of};
ghost use Rattle.exports.specs.Answers.{answer_of};
ghost use Rattle.exports.specs.Written.{passed_written, taken_written};

use crate::answers;
use crate::answers::Answer;
use crate::lending::tables_of;

/// The facts that every way to the goal passes. Refusals 1 to 5, and 7 where there is no way.
#[tactic(auto, unfolding(must::specs::Answer::passed_of, task::specs::Refusal::answered))]
pub fn salgezhim_must_facts(
    facts: usize,
    steps: usize,
    needs: &[u64],
    sets: &[u64],
    clears: &[u64],
    costs: &[u32],
    start: &[u64],
    goal: &[u64],
    set: &mut [u64; 4],
) -> Answer
    ensures answer { result ≡ answer_of (pass_verdict (tables facts steps needs.now sets.now clears.now costs.now start.now goal.now)) }
    ensures set { set.new ≡ passed_written (passed_of (tables facts steps needs.now sets.now clears.now costs.now start.now goal.now)) set.old }
{
    let passed = must::must_pass(tables_of(facts, steps, needs, sets, clears, costs, start, goal));
    answers::write_set(passed, set);
    passed.into()
}

/// The steps that every way to the goal takes. Refusals 1 to 5, and 7 where there is no way.
#[tactic(auto, unfolding(must::specs::Answer::taken_of, task::specs::Refusal::answered))]
pub fn salgezhim_must_steps(
    facts: usize,
    steps: usize,
    needs: &[u64],
    sets: &[u64],
    clears: &[u64],
    costs: &[u32],
    start: &[u64],
    goal: &[u64],
    set: &mut [u64; 16],
) -> Answer
    ensures answer { result ≡ answer_of (pass_verdict (tables facts steps needs.now sets.now clears.now costs.now start.now goal.now)) }
    ensures set { set.new ≡ taken_written (taken_of (tables facts steps needs.now sets.now clears.now costs.now start.now goal.now)) set.old }
{
    let taken = must::must_take(tables_of(facts, steps, needs, sets, clears, costs, start, goal));
    answers::write_set(taken, set);
    taken.into()
}
