// Replaying a walk: whether its steps can be taken in turn from the start, and what they cost.
//
// `replay` has no `requires`: it refuses with 1 to 5, 8 and 9, lowest first, and looks for 9 over the
// whole walk before any step is taken. Its contract cites specs/Replay.antt; proofs/Walked.antt says
// of each answer exactly when it is given.
#![tactic(auto)]

ghost use Rattle.std.specs.Prelude.{◌≡◌, Ok, nat_le};
ghost use Rattle.std.specs.List.{position};
ghost use Rattle.sets.specs.Tests.{no, both};
ghost use Rattle.sets.specs.Sets.{within};
ghost use Rattle.sets.specs.Words.{has, row};
ghost use Rattle.task.specs.Lent.{lent};
ghost use Rattle.replay.specs.Replay.{walked, refused_past, walk_verdict, replayed_of};
ghost use Rattle.replay.specs.Rows.{task_without};

use sets::{Facts, Steps};
use task::{Fault, Refusal, Tables, Task};

/// Done with the cost in clicks, stuck at an entry of the walk, or short of the goal.
#[derive(Clone, Copy, Debug, PartialEq, Eq)]
pub enum Replayed {
    Done(u64),
    Stuck(usize),
    Short,
}

/// What becomes of a walk, given by the numbers of its steps. Refusals 1 to 5, 8 and 9; the place of 9
/// is that of the first entry that is no step's number.
#[tactic(auto, unfolding(crate::specs::Replay::replayed_of, task::specs::Refusal::answered))]
pub fn replay(tables: Tables<'_>, walk: &[u16]) -> Result<Replayed, Refusal>
    ensures { result ≡ replayed_of (lent tables.entry) walk.now }
{
    let task = Task::check(tables)?;
    check_walk(task, walk)?;
    Ok(follow(task, Steps::empty(), walk))
}

// What is wrong with a walk through a task, if anything.
#[tactic(auto, unfolding(crate::specs::Replay::walk_verdict, task::specs::Refusal::first_refusal, task::specs::Refusal::or_else, task::specs::Refusal::refused_if, sets::specs::Tests::below))]
fn check_walk(task: Task<'_>, walk: &[u16]) -> Result<(), Refusal>
    ensures { result ≡ walk_verdict (lent task.entry.tables) walk.now }
{
    Fault::WalkLength.unless(walk.len() <= Task::WALK)?;
    check_entries(walk, task.tables.sizes.steps)
}

// Whether each entry is the number of one of m steps.
fn check_entries(walk: &[u16], m: usize) -> Result<(), Refusal>
    ensures { result ≡ refused_past m walk.now }
{
    match first_past(walk, m) {
        Some(entry) => Err(Fault::StepNumber.at(entry)),
        None => Ok(()),
    }
}

// The place of the first entry that is m or more.
fn first_past(walk: &[u16], m: usize) -> Option<usize>
    ensures { result ≡ position (nat_le m) walk.now }
{
    walk.iter().position(|&step| m <= usize::from(step))
}

// Takes the steps of a walk in turn, without those that are off.
fn follow(task: Task<'_>, off: Steps, walk: &[u16]) -> Replayed
    requires { walk_verdict (lent task.tables) walk.now ≡ Ok tt }
    ensures { result ≡ walked (task_without (lent task.entry.tables) (has off.words)) walk.now }
{
    let tables = task.tables;
    let mut holding = tables.start_facts();
    let mut cost: u64 = 0;
    for (entry, &step) in walk.iter().enumerate() {
        let step = usize::from(step);
        if !can_take(tables, step, off, holding) {
            return Replayed::Stuck(entry);
        }
        holding = tables.take_step(step, holding);
        cost += u64::from(tables.costs[step]);
    }
    if tables.goal_facts().within(holding) {
        return Replayed::Done(cost);
    }
    Replayed::Short
}

// Whether a step is on and all its needs hold.
#[tactic(auto, unfolding(sets::specs::Tests::both, sets::specs::Tests::no))]
fn can_take(tables: Tables<'_>, step: usize, off: Steps, holding: Facts) -> bool
    ensures { result ≡ both (no (has off.words step)) (within 256 (has (row 4 step tables.entry.needs.now)) (has holding.words)) }
{
    !off.has(step) && tables.needs_hold(step, holding)
}
