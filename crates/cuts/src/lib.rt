// Cuts, round by round: disjoint costs that every real walk has to pay, and their sum, the floor.
//
// `cuts` has no `requires`: it checks the task first. Its contract cites specs/Answer.antt;
// specs/Cut.antt and specs/Rounds.antt say what the cuts are, and proofs/Demand3.antt what holds of
// them.
#![tactic(auto)]

mod choosing;
mod costs;
mod growing;
mod looping;
mod tables;

ghost use Rattle.std.specs.Prelude.{◌≡◌, length};
ghost use Rattle.task.specs.Lent.{lent};
ghost use Rattle.task.specs.Tables.{view};
ghost use Rattle.cuts.specs.Answer.{cuts_verdict, cutting_by, cuts_written, prices_written, left_written};

use looping::Rounds;
use tables::CutTables;
use task::{Refusal, Tables};

/// The number of rounds, and the sum of the cuts' costs.
#[derive(Clone, Copy, Debug, PartialEq, Eq)]
pub struct Cutting {
    pub rounds: usize,
    pub floor: u32,
}

/// Writes the cut of each round, sixteen words each, its cost, and the costs left after all rounds.
/// Refusals 1 to 7, which leave the tables as they were.
#[tactic(auto, unfolding(crate::specs::Answer::cutting_by, crate::specs::Answer::cuts_written, crate::specs::Answer::prices_written, crate::specs::Answer::left_written, task::specs::Refusal::answered))]
pub fn cuts(
    tables: Tables<'_>,
    rows: &mut [u64],
    prices: &mut [u32],
    left: &mut [u32],
) -> Result<Cutting, Refusal>
    ensures answer { result ≡ cutting_by (cuts_verdict (lent tables.entry) (length rows.old) (length prices.old) (length left.old)) (view (lent tables.entry)) }
    ensures rows { rows.new ≡ cuts_written (cuts_verdict (lent tables.entry) (length rows.old) (length prices.old) (length left.old)) (view (lent tables.entry)) rows.old }
    ensures prices { prices.new ≡ prices_written (cuts_verdict (lent tables.entry) (length rows.old) (length prices.old) (length left.old)) (view (lent tables.entry)) prices.old }
    ensures left { left.new ≡ left_written (cuts_verdict (lent tables.entry) (length rows.old) (length prices.old) (length left.old)) (view (lent tables.entry)) left.old }
{
    let rounds = Rounds::due(tables, rows.len(), prices.len(), left.len())?;
    let mut cuts = CutTables { rows, prices };
    Ok(rounds.make_all(&mut cuts, &mut left[..tables.sizes.steps]))
}
