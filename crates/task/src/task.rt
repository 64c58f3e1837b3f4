// A task that was checked, and the limits within which every task stays.
ghost use Rattle.std.specs.Prelude.{◌≡◌, Ok};
ghost use Rattle.task.specs.Check.{verdict_of};
ghost use Rattle.task.specs.Lent.{lent};
ghost use Rattle.task.specs.Checked.{Checked};

use crate::refusal::Refusal;
use crate::tables::Tables;

/// Tables that nothing is wrong with.
#[derive(Clone, Copy, Debug)]
pub struct Task<'a> {
    pub tables: Tables<'a>,
    pub ghost valid: { Checked (lent tables) },
    pub ghost fine: { verdict_of (lent tables) ≡ Ok tt },
}

/// The limits as values, for whoever cannot name a constant.
#[derive(Clone, Copy, Debug, PartialEq, Eq)]
pub struct Limits {
    pub facts: usize,
    pub steps: usize,
    pub cost: u32,
    pub walk: usize,
    pub mark: u32,
}

impl<'a> Task<'a> {
    ghost use Rattle.std.specs.Prelude.{IfOk, IfErr, Err};
    ghost use Rattle.task.specs.Limits.{limits};

    /// The most facts that a task has.
    pub const FACTS: usize = 256;

    /// The most steps that a task has.
    pub const STEPS: usize = 1024;

    /// The largest cost of a step, in clicks.
    pub const COST: u32 = 65535;

    /// The most entries of a walk.
    pub const WALK: usize = 65535;

    /// The distance of a fact that cannot be reached.
    pub const MARK: u32 = 4294967295;

    /// All the limits.
    pub fn limits() -> Limits
        ensures { result ≡ limits }
    {
        Limits {
            facts: Task::FACTS,
            steps: Task::STEPS,
            cost: Task::COST,
            walk: Task::WALK,
            mark: Task::MARK,
        }
    }

    /// The tables as a task, if nothing is wrong with them: refusals 1 to 5.
    pub fn check(tables: Tables<'a>) -> Result<Self, Refusal>
        ensures same { IfOk result (λ task. task.tables ≡ tables.entry) }
        ensures fine { IfOk result (λ task. verdict_of (lent tables.entry) ≡ Ok tt) }
        ensures refused { IfErr result (λ refusal. verdict_of (lent tables.entry) ≡ Err refusal) }
    {
        crate::checks::check(tables)?;
        Ok(Task { tables })
    }
}
