// Distances (h-max): of each fact the cheapest derivation from the start, clearing ignored, where
// of several needs the farthest counts.
//
// `distances` finds them for a task. `begin_distances` and `settle` are its two halves, for a
// caller that lowers costs and goes on from the distances under the old ones: `settled_distances`
// in proofs/Relaxing.antt tells from which tables `settle` ends in the distances.
//
// No public function has a `requires`. The contracts cite specs/Distance.antt and
// specs/Answer.antt; those of `settle` and its workers cite specs/Relaxing.antt.
#![tactic(auto)]

ghost use Rattle.std.specs.Prelude.{◌≡◌, ◌+◌, length};
ghost use Rattle.sets.specs.Tests.{pick};
ghost use Rattle.sets.specs.Sets.{none};
ghost use Rattle.sets.specs.Words.{has, row};
ghost use Rattle.task.specs.Limits.{limits};
ghost use Rattle.task.specs.Lent.{lent};
ghost use Rattle.task.specs.Rows.{rows_task};
ghost use Rattle.distance.specs.Distance.{largest, list_of, entry};
ghost use Rattle.distance.specs.Relaxing.{Lowered, Relaxed, LargestStill};
ghost use Rattle.distance.specs.Answer.{distances_verdict, distances_written};

use sets::{Facts, Steps};
use task::{Fault, Refusal, Tables, Task};

/// Writes the distances of all facts under the task's costs into the first numbers of a table.
/// Refusals 1 to 6, which leave it as it was.
#[tactic(auto, unfolding(crate::specs::Answer::distances_verdict, crate::specs::Answer::distances_written, crate::specs::Answer::written_by, task::specs::Refusal::first_refusal, task::specs::Refusal::or_else, task::specs::Refusal::refused_if, sets::specs::Tests::below))]
pub fn distances(tables: Tables<'_>, out: &mut [u32]) -> Result<(), Refusal>
    ensures verdict { result ≡ distances_verdict (lent tables.entry) (length out.old) }
    ensures table { out.new ≡ distances_written (lent tables.entry) out.old }
{
    task::check(tables)?;
    let facts = tables.sizes.facts;
    Fault::ShortResult.unless(facts <= out.len())?;
    let table = &mut out[..facts];
    begin_distances(tables.start_facts(), table);
    settle(tables, tables.costs, Steps::empty(), table);
    Ok(())
}

/// Makes the table 0 for what holds at first and the mark for everything else.
pub fn begin_distances(start: Facts, table: &mut [u32])
    ensures { table.new ≡ list_of (length table.old) (λ f. pick (has start.words f) 0 limits.mark) }
{
    for (f, entry) in table.iter_mut().enumerate() {
        *entry = if start.has(f) { 0 } else { Task::MARK };
    }
}

/// Relaxes the table by all steps that are not off, at these costs in place of the task's, until
/// none of them changes it: what it ends as is the largest table nowhere above it that none of them
/// relaxes. A fact past its end counts as 0.
pub fn settle(tables: Tables<'_>, costs: &[u32], off: Steps, table: &mut [u32])
    ensures { LargestStill (rows_task (length table.old) (length costs.now) tables.entry.needs.now tables.entry.sets.now (has off.words) none) (entry costs.now) table.old table.new }
{
    while relax(tables, costs, off, table) {}
}

/// The distance of a set in a table of distances: the largest among its members, 0 for the empty
/// set. A number past the table's end counts as 0.
pub fn set_distance(table: &[u32], set: Facts) -> u32
    ensures { result ≡ largest 256 (has set.words) (entry table.now) }
{
    set.members()
        .fold(0, |most, f| most.max(entry_at(table, f)))
}

/// The number at f of a table, 0 past its end.
pub fn entry_at(table: &[u32], f: usize) -> u32
    ensures { result ≡ entry table.now f }
{
    table.get(f).copied().unwrap_or(0)
}

// Relaxes the table by each step that is not off, one after the other. Whether one changed it.
fn relax(tables: Tables<'_>, costs: &[u32], off: Steps, table: &mut [u32]) -> bool
    ensures { Relaxed (rows_task (length table.old) (length costs.now) tables.entry.needs.now tables.entry.sets.now (has off.words) none) (entry costs.now) 0 (length costs.now) table.old table.new result }
{
    let mut again = false;
    for (step, &cost) in costs.iter().enumerate() {
        if !off.has(step) {
            again |= relax_by(tables, step, cost, table);
        }
    }
    again
}

// Relaxes the table by one step at that cost. Whether that changed it.
fn relax_by(tables: Tables<'_>, step: usize, cost: u32, table: &mut [u32]) -> bool
    ensures { Lowered (has (row 4 step tables.entry.sets.now)) (cost + largest 256 (has (row 4 step tables.entry.needs.now)) (entry table.old)) table.old table.new result }
{
    let farthest = set_distance(table, tables.needs_of(step));
    let sum = u64::from(cost) + u64::from(farthest);
    lower(tables.sets_of(step), sum, table)
}

// Lowers to x what the table holds for each member of the set, where that is more. Whether it was
// for any.
fn lower(set: Facts, x: u64, table: &mut [u32]) -> bool
    ensures { Lowered (has set.words) x table.old table.new result }
{
    let mut changed = false;
    for f in set.members() {
        if x < u64::from(entry_at(table, f)) {
            // Stays a cast: x is below a u32 here, and `try_from` could only say so again.
            table[f] = x as u32;
            changed = true;
        }
    }
    changed
}
