// A task as the eight parameters that C has for it, made one value.
ghost use Rattle.std.specs.Prelude.{◌≡◌};
ghost use Rattle.task.specs.Tables.{tables};
ghost use Rattle.task.specs.Lent.{lent};

use task::{Sizes, Tables};

// The sizes and tables that a caller lends. Stays eight parameters: the C interface.
pub(crate) fn tables_of<'a>(
    facts: usize,
    steps: usize,
    needs: &'a [u64],
    sets: &'a [u64],
    clears: &'a [u64],
    costs: &'a [u32],
    start: &'a [u64],
    goal: &'a [u64],
) -> Tables<'a>
    ensures { lent result ≡ tables facts steps needs.now sets.now clears.now costs.now start.now goal.now }
{
    let sizes = Sizes { facts, steps };
    Tables {
        sizes,
        needs,
        sets,
        clears,
        costs,
        start,
        goal,
    }
}
