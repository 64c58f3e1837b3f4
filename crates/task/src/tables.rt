// A task as its caller lends it, and what every operation asks of the rows.
ghost use Rattle.std.specs.Prelude.{◌≡◌, ◌≤◌, OnOk};
ghost use Rattle.sets.specs.Sets.{within};
ghost use Rattle.sets.specs.Words.{has, words_of, row};
ghost use Rattle.task.specs.Walks.{taken};
ghost use Rattle.task.specs.Check.{sizes_verdict};

use crate::refusal::{Fault, Refusal};
use crate::task::Task;
use sets::Facts;

/// How many facts and steps a task has.
#[derive(Clone, Copy, Debug, PartialEq, Eq)]
pub struct Sizes {
    pub facts: usize,
    pub steps: usize,
}

/// A task as its caller lends it: any sizes, and tables of any lengths. Needs, sets and clears have four
/// words a step, costs one number a step, start and goal four words.
#[derive(Clone, Copy, Debug)]
pub struct Tables<'a> {
    pub sizes: Sizes,
    pub needs: &'a [u64],
    pub sets: &'a [u64],
    pub clears: &'a [u64],
    pub costs: &'a [u32],
    pub start: &'a [u64],
    pub goal: &'a [u64],
}

impl Sizes {
    /// Whether a task may have so many facts and steps: refusals 1 and 2.
    #[tactic(auto, unfolding(crate::specs::Check::sizes_verdict, crate::specs::Check::wrong_facts, crate::specs::Check::wrong_steps, crate::specs::Refusal::first_refusal, crate::specs::Refusal::or_else, crate::specs::Refusal::refused_if, sets::specs::Tests::either, sets::specs::Tests::same, sets::specs::Tests::below))]
    pub fn check(self) -> Result<(), Refusal>
        ensures verdict { result ≡ sizes_verdict self.facts self.steps }
        ensures few_steps { OnOk result (self.steps ≤ 1024) }
    {
        Fault::FactCount.unless(0 < self.facts && self.facts <= Task::FACTS)?;
        Fault::StepCount.unless(self.steps <= Task::STEPS)
    }
}

impl Tables<'_> {
    /// The facts that hold at first.
    pub fn start_facts(self) -> Facts
        ensures { result.words ≡ words_of 4 (has (row 4 0 self.entry.start.now)) }
    {
        Facts::row(self.start, 0)
    }

    /// The facts that are to hold in the end.
    pub fn goal_facts(self) -> Facts
        ensures { result.words ≡ words_of 4 (has (row 4 0 self.entry.goal.now)) }
    {
        Facts::row(self.goal, 0)
    }

    /// The facts that a step needs.
    pub fn needs_of(self, step: usize) -> Facts
        ensures { result.words ≡ words_of 4 (has (row 4 step self.entry.needs.now)) }
    {
        Facts::row(self.needs, step)
    }

    /// The facts that a step sets.
    pub fn sets_of(self, step: usize) -> Facts
        ensures { result.words ≡ words_of 4 (has (row 4 step self.entry.sets.now)) }
    {
        Facts::row(self.sets, step)
    }

    /// Whether all that a step needs holds.
    pub fn needs_hold(self, step: usize, holding: Facts) -> bool
        ensures { result ≡ within 256 (has (row 4 step self.entry.needs.now)) (has holding.words) }
    {
        self.needs_of(step).within(holding)
    }

    /// What holds after a step: its clears are removed first, then its sets are added.
    pub fn take_step(self, step: usize, holding: Facts) -> Facts
        ensures { result.words ≡ words_of 4 (taken (has holding.words) (has (row 4 step self.entry.clears.now)) (has (row 4 step self.entry.sets.now))) }
    {
        holding
            .removing(Facts::row(self.clears, step))
            .joining(self.sets_of(step))
    }
}
