// What is written into tables: distances, must rows, just-before rows and cuts.
ghost use Rattle.std.specs.Prelude.{◌≡◌, length};
ghost use Rattle.task.specs.Tables.{tables, view};
ghost use Rattle.distance.specs.Answer.{distances_verdict, distances_written};
ghost use Rattle.must.specs.Must.{must_row, just_before};
ghost use Rattle.must.specs.Answer.{rows_verdict, rows_written};
ghost use Rattle.cuts.specs.Answer.{cuts_verdict, cutting_by, cuts_written, prices_written, left_written};
ghost use Rattle.exports.specs.Answers.{answer_of, cuts_answer_of};

use crate::answers::{Answer, CutsAnswer};
use crate::lending::tables_of;

/// Writes the distance of each fact into the first n numbers lent. Refusals 1 to 6.
pub fn salgezhim_distances(
    facts: usize,
    steps: usize,
    needs: &[u64],
    sets: &[u64],
    clears: &[u64],
    costs: &[u32],
    start: &[u64],
    goal: &[u64],
    out: &mut [u32],
) -> Answer
    ensures answer { result ≡ answer_of (distances_verdict (tables facts steps needs.now sets.now clears.now costs.now start.now goal.now) (length out.old)) }
    ensures table { out.new ≡ distances_written (tables facts steps needs.now sets.now clears.now costs.now start.now goal.now) out.old }
{
    let tables = tables_of(facts, steps, needs, sets, clears, costs, start, goal);
    distance::distances(tables, out).into()
}

/// Writes the must row of each fact, four words a fact, into the first 4n words lent. Refusals 1 to 6.
pub fn salgezhim_must_rows(
    facts: usize,
    steps: usize,
    needs: &[u64],
    sets: &[u64],
    clears: &[u64],
    costs: &[u32],
    start: &[u64],
    goal: &[u64],
    rows: &mut [u64],
) -> Answer
    ensures answer { result ≡ answer_of (rows_verdict (tables facts steps needs.now sets.now clears.now costs.now start.now goal.now) (length rows.old)) }
    ensures table { rows.new ≡ rows_written (rows_verdict (tables facts steps needs.now sets.now clears.now costs.now start.now goal.now) (length rows.old)) facts (must_row (view (tables facts steps needs.now sets.now clears.now costs.now start.now goal.now))) rows.old }
{
    let tables = tables_of(facts, steps, needs, sets, clears, costs, start, goal);
    must::must_rows(tables, rows).into()
}

/// Writes the just-before row of each fact, four words a fact, into the first 4n words lent. Refusals
/// 1 to 6.
pub fn salgezhim_just_before_rows(
    facts: usize,
    steps: usize,
    needs: &[u64],
    sets: &[u64],
    clears: &[u64],
    costs: &[u32],
    start: &[u64],
    goal: &[u64],
    rows: &mut [u64],
) -> Answer
    ensures answer { result ≡ answer_of (rows_verdict (tables facts steps needs.now sets.now clears.now costs.now start.now goal.now) (length rows.old)) }
    ensures table { rows.new ≡ rows_written (rows_verdict (tables facts steps needs.now sets.now clears.now costs.now start.now goal.now) (length rows.old)) facts (just_before (view (tables facts steps needs.now sets.now clears.now costs.now start.now goal.now))) rows.old }
{
    let tables = tables_of(facts, steps, needs, sets, clears, costs, start, goal);
    must::just_before_rows(tables, rows).into()
}

/// Writes the cut of each round, sixteen words each, its cost, and the costs left after all rounds.
/// Refusals 1 to 7.
pub fn salgezhim_cuts(
    facts: usize,
    steps: usize,
    needs: &[u64],
    sets: &[u64],
    clears: &[u64],
    costs: &[u32],
    start: &[u64],
    goal: &[u64],
    rows: &mut [u64],
    prices: &mut [u32],
    left: &mut [u32],
) -> CutsAnswer
    ensures answer { result ≡ cuts_answer_of (cutting_by (cuts_verdict (tables facts steps needs.now sets.now clears.now costs.now start.now goal.now) (length rows.old) (length prices.old) (length left.old)) (view (tables facts steps needs.now sets.now clears.now costs.now start.now goal.now))) }
    ensures rows { rows.new ≡ cuts_written (cuts_verdict (tables facts steps needs.now sets.now clears.now costs.now start.now goal.now) (length rows.old) (length prices.old) (length left.old)) (view (tables facts steps needs.now sets.now clears.now costs.now start.now goal.now)) rows.old }
    ensures prices { prices.new ≡ prices_written (cuts_verdict (tables facts steps needs.now sets.now clears.now costs.now start.now goal.now) (length rows.old) (length prices.old) (length left.old)) (view (tables facts steps needs.now sets.now clears.now costs.now start.now goal.now)) prices.old }
    ensures left { left.new ≡ left_written (cuts_verdict (tables facts steps needs.now sets.now clears.now costs.now start.now goal.now) (length rows.old) (length prices.old) (length left.old)) (view (tables facts steps needs.now sets.now clears.now costs.now start.now goal.now)) left.old }
{
    let tables = tables_of(facts, steps, needs, sets, clears, costs, start, goal);
    cuts::cuts(tables, rows, prices, left).into()
}
