// Reach: what some way leads to, clearing ignored, and the number of passes that find it.
//
// `reach` has no `requires`: it checks the task first. Its contract cites specs/Answer.antt;
// specs/Least.antt and specs/Reach.antt say what the set and the number of passes are, and
// proofs/Ways.antt that the set is what some way leads to.
#![tactic(auto)]

mod closing;

ghost use Rattle.std.specs.Prelude.{◌≡◌};
ghost use Rattle.sets.specs.Sets.{joined};
ghost use Rattle.sets.specs.Words.{has, words_of};
ghost use Rattle.task.specs.Lent.{lent};
ghost use Rattle.task.specs.Tables.{view};
ghost use Rattle.task.specs.Rows.{rows_without};
ghost use Rattle.reach.specs.Reach.{made, without};
ghost use Rattle.reach.specs.Answer.{reached_by, reached_of};
ghost use Rattle.reach.specs.OneStep.{added_by};

pub use closing::{Rule, close};
use sets::{Facts, Steps};
use task::{Refusal, Tables, Task};

/// The facts within reach, and the number of passes that found them, the last one counted.
#[derive(Clone, Copy, Debug, PartialEq, Eq)]
pub struct Reached {
    pub set: Facts,
    pub passes: usize,
}

/// What is within reach of the start, clearing ignored. Refusals 1 to 5.
#[tactic(auto, unfolding(crate::specs::Answer::reached_of, task::specs::Refusal::answered))]
pub fn reach(tables: Tables<'_>) -> Result<Reached, Refusal>
    ensures { result ≡ reached_of (lent tables.entry) }
{
    let task = Task::check(tables)?;
    Ok(reach_without(task, Steps::empty()))
}

/// What is within reach of a checked task without the steps that are off.
pub fn reach_without(task: Task<'_>, off: Steps) -> Reached
    ensures { result ≡ reached_by (without (view (lent task.entry.tables)) (has off.words)) }
{
    close(task.tables.start_facts(), &StepsOn { task, off })
}

// The steps of a task that are on, as a rule: a pass over them.
#[derive(Clone, Copy)]
struct StepsOn<'a> {
    task: Task<'a>,
    off: Steps,
}

impl Rule for StepsOn<'_> {
    ghost gives = { λ rule X Y. Y.words ≡ words_of 4 (joined (has X.words) (made (rows_without (lent rule.task.tables) (has rule.off.words)) (has X.words))) };

    fn given(&self, holding: Facts) -> Facts {
        let StepsOn { task, off } = *self;
        pass(task, off, holding)
    }
}

// One pass: what is set by all steps whose needs held when it began is added.
fn pass(task: Task<'_>, off: Steps, holding: Facts) -> Facts
    ensures { result.words ≡ words_of 4 (joined (has holding.words) (made (rows_without (lent task.entry.tables) (has off.words)) (has holding.words))) }
{
    let mut next = holding;
    for step in 0..task.tables.sizes.steps {
        next = add_step(task.tables, step, off, holding, next);
    }
    next
}

// The set with what the step sets, if it is not off and its needs hold.
fn add_step(tables: Tables<'_>, step: usize, off: Steps, holding: Facts, next: Facts) -> Facts
    ensures { result.words ≡ words_of 4 (joined (has next.words) (added_by tables.entry.needs.now tables.entry.sets.now (has off.words) (has holding.words) step)) }
{
    // Needs first: they fail more often, and cost less to look at.
    if !tables.needs_hold(step, holding) {
        return next;
    }
    if off.has(step) {
        return next;
    }
    next.joining(tables.sets_of(step))
}
