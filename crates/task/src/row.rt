// The row of a step, handed out as a part of the caller's own table.
ghost use Rattle.std.specs.Prelude.{◌≡◌, ◌+◌, ◌*◌, ◌≤◌, length};
ghost use Rattle.sets.specs.Words.{row};
ghost use Rattle.task.specs.Refusal.{answered};
ghost use Rattle.task.specs.Row.{row_asked, row_of, row_verdict, handed_out, handed_at};

use crate::refusal::{Fault, Refusal};
use crate::tables::Sizes;
use sets::Facts;

/// Which row of a step is asked for.
#[derive(Clone, Copy, Debug, PartialEq, Eq)]
pub enum Row {
    /// What the step needs: asked for by 0.
    Needs,
    /// What the step sets: asked for by 1.
    Sets,
}

impl TryFrom<u8> for Row {
    type Error = Refusal;

    ghost try_from_gives = { λ which row. row ≡ row_asked which };

    #[tactic(auto, unfolding(crate::specs::Refusal::answered, crate::specs::Refusal::refused_if, sets::specs::Tests::pick, sets::specs::Tests::same, sets::specs::Tests::below))]
    fn try_from(which: u8) -> Result<Self, Refusal> {
        match which {
            0 => Ok(Row::Needs),
            1 => Ok(Row::Sets),
            _ => Err(Fault::RowKind.at(0)),
        }
    }
}

/// Whether `step_row` hands a row out for the same arguments: refusals 1, 2, 3 of these two tables, 9
/// and 10.
// `which` stays a number: `row_verdict` promises refusal 10 of any other byte. The tables stay two slices:
// neither clears nor costs are asked for, and a wrong one of them must not be refused.
#[tactic(auto, unfolding(crate::specs::Refusal::answered))]
pub fn check_row(
    sizes: Sizes,
    needs: &[u64],
    sets: &[u64],
    step: usize,
    which: u8,
) -> Result<(), Refusal>
    ensures { result ≡ row_verdict sizes.facts sizes.steps needs.now sets.now step which }
{
    asked_row(sizes, needs, sets, step, which)?;
    Ok(())
}

/// The four words of a step's needs (which is 0) or sets (which is 1), in the caller's own table; an
/// empty part where `check_row` refuses the same arguments.
// Stays a slice and no `Result`: `handed_out` promises an empty part of needs on a refusal.
pub fn step_row<'a>(
    sizes: Sizes,
    needs: &'a [u64],
    sets: &'a [u64],
    step: usize,
    which: u8,
) -> &'a [u64]
    ensures words { result.now ≡ handed_out (row_verdict sizes.facts sizes.steps needs.now sets.now step which) step which needs.now sets.now }
    ensures place { result.ref_ptr ≡ handed_at (row_verdict sizes.facts sizes.steps needs.now sets.now step which) step which needs.entry.ref_ptr sets.entry.ref_ptr }
{
    match asked_row(sizes, needs, sets, step, which) {
        Ok(Row::Needs) => part(needs, step),
        Ok(Row::Sets) => part(sets, step),
        Err(_) => &needs[..0],
    }
}

// Which row is asked for, if nothing is wrong with the arguments.
#[tactic(auto, unfolding(crate::specs::Row::row_verdict, crate::specs::Refusal::answered, crate::specs::Refusal::first_refusal, crate::specs::Refusal::or_else, crate::specs::Refusal::refused_if, sets::specs::Tests::both, sets::specs::Tests::same, sets::specs::Tests::no, sets::specs::Tests::below))]
fn asked_row(
    sizes: Sizes,
    needs: &[u64],
    sets: &[u64],
    step: usize,
    which: u8,
) -> Result<Row, Refusal>
    ensures { result ≡ answered (row_verdict sizes.facts sizes.steps needs.now sets.now step which) (row_of which) }
{
    sizes.check()?;
    let words = Facts::WORDS * sizes.steps;
    Fault::TableLength.unless(needs.len() == words && sets.len() == words)?;
    Fault::StepNumber.unless(step < sizes.steps)?;
    Row::try_from(which)
}

// The four words of a table from 4 times the step number.
fn part<'a>(table: &'a [u64], step: usize) -> &'a [u64]
    requires { step * 4 + 4 ≤ length table.now }
    ensures words { result.now ≡ row 4 step table.now }
    ensures place { result.ref_ptr ≡ (table.entry.ref_ptr.0, table.entry.ref_ptr.1 + 32 * step) }
{
    let at = Facts::WORDS * step;
    &table[at..at + Facts::WORDS]
}
