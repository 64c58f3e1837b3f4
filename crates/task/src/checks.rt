// Checking a task: refusals 1 to 5, lowest first, of tables of any lengths.
ghost use Rattle.std.specs.Prelude.{◌≡◌, ◌≤◌, length};
ghost use Rattle.task.specs.Lent.{lent};
ghost use Rattle.task.specs.Check.{right_lengths, only_facts, right_sets, right_costs, verdict_of};

use crate::refusal::{Fault, Refusal};
use crate::tables::Tables;
use crate::task::Task;
use sets::Facts;

/// What is wrong with a task's sizes and tables, if anything: every other operation on a task starts
/// from this answer.
#[tactic(auto, unfolding(crate::specs::Check::verdict_of, crate::specs::Refusal::first_refusal, crate::specs::Refusal::or_else, crate::specs::Refusal::refused_if, sets::specs::Tests::no))]
pub fn check(tables: Tables<'_>) -> Result<(), Refusal>
    ensures { result ≡ verdict_of (lent tables.entry) }
{
    tables.sizes.check()?;
    Fault::TableLength.unless(right_lengths(tables))?;
    Fault::FactNumber.unless(right_sets(tables))?;
    Fault::StepCost.unless(right_costs(tables.costs))
}

// Whether the tables are as long as the sizes say.
#[tactic(auto, unfolding(crate::specs::Check::right_lengths, sets::specs::Tests::both, sets::specs::Tests::same))]
fn right_lengths(tables: Tables<'_>) -> bool
    requires { tables.sizes.steps ≤ 1024 }
    ensures { result ≡ right_lengths tables.entry.sizes.steps (length tables.entry.needs.now) (length tables.entry.sets.now) (length tables.entry.clears.now) (length tables.entry.costs.now) (length tables.entry.start.now) (length tables.entry.goal.now) }
{
    let words = Facts::WORDS * tables.sizes.steps;
    tables.needs.len() == words
        && tables.sets.len() == words
        && tables.clears.len() == words
        && tables.costs.len() == tables.sizes.steps
        && tables.start.len() == Facts::WORDS
        && tables.goal.len() == Facts::WORDS
}

// Whether no set of the tables holds a fact that the task does not have.
#[tactic(auto, unfolding(crate::specs::Check::right_sets, sets::specs::Tests::both))]
fn right_sets(tables: Tables<'_>) -> bool
    ensures { result ≡ right_sets tables.entry.sizes.facts tables.entry.needs.now tables.entry.sets.now tables.entry.clears.now tables.entry.start.now tables.entry.goal.now }
{
    let facts = tables.sizes.facts;
    only_facts(facts, tables.needs)
        && only_facts(facts, tables.sets)
        && only_facts(facts, tables.clears)
        && only_facts(facts, tables.start)
        && only_facts(facts, tables.goal)
}

// Whether no row of a table of sets of facts holds a fact numbered n or more.
fn only_facts(n: usize, table: &[u64]) -> bool
    ensures { result ≡ only_facts n table.now }
{
    let facts = Facts::up_to(n);
    for number in 0..table.len() / Facts::WORDS {
        if !Facts::row(table, number).within(facts) {
            return false;
        }
    }
    true
}

// Whether no cost is above the largest.
#[tactic(auto, unfolding(crate::specs::Check::right_costs))]
fn right_costs(costs: &[u32]) -> bool
    ensures { result ≡ right_costs costs.now }
{
    costs.iter().all(|&cost| cost <= Task::COST)
}
