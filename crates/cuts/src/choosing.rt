// The chosen need of a step: the one with the largest distance, of equals the lowest number; and the
// steps that are not dropped.
ghost use Rattle.std.specs.Prelude.{◌≡◌, ℕ, ◌<◌, ◌≤◌, Bool, length};
ghost use Rattle.sets.specs.Tests.{Is};
ghost use Rattle.sets.specs.Sets.{Set, up_to, met};
ghost use Rattle.sets.specs.Words.{has, words_of};
ghost use Rattle.task.specs.Lent.{lent};
ghost use Rattle.task.specs.Tables.{view};
ghost use Rattle.distance.specs.Distance.{entry};
ghost use Rattle.cuts.specs.Cut.{lowest_farthest};
ghost use Rattle.cuts.specs.Workers.{chosen_from, counted_from};

use sets::{Facts, Steps};
use task::Task;

// Writes the chosen need of each step, and the number of facts where it has no needs.
pub(crate) fn choose_needs(task: Task<'_>, table: &[u32], chosen: &mut [u16])
    requires { length chosen.old ≡ task.tables.sizes.steps }
    ensures { chosen.new ≡ chosen_from (view (lent task.entry.tables)) table.now }
{
    let n = task.tables.sizes.facts;
    for (step, choice) in chosen.iter_mut().enumerate() {
        // Stays a cast: the choice is 256 at most, and `u16::try_from` adds an arm that can't be taken.
        *choice = farthest(n, table, task.tables.needs_of(step)) as u16;
    }
}

// The member of a set of facts below n with the largest number in a table, of equals the lowest; n
// where the set is empty. Stays a number and no Option: n is the vertex "begin" in specs/Cut.antt
// (lowest_farthest), and one slice holds the choices of all steps.
pub(crate) fn farthest(n: usize, table: &[u32], set: Facts) -> usize
    requires few { n ≤ 256 }
    requires below { (f : ℕ) → Is (has set.words f) → f < n }
    ensures choice { result ≡ lowest_farthest n (has set.words) (entry table.now) }
    ensures most { result ≤ n }
{
    let mut found = n;
    let mut most = 0;
    for f in set.members() {
        let here = distance::entry_at(table, f);
        if found == n || most < here {
            found = f;
            most = here;
        }
    }
    found
}

// The steps all of whose needs are reached.
pub(crate) fn counted_steps(task: Task<'_>, reached: Facts) -> Steps
    ensures { result.words ≡ words_of 16 (counted_from (view (lent task.entry.tables)) (has reached.words)) }
{
    steps_where(task.tables.sizes.steps, |step| {
        task.tables.needs_hold(step, reached)
    })
}

// The steps below m that pass a test.
pub(crate) fn steps_where<F: Fn(usize) -> bool>(m: usize, test: F) -> Steps
    requires { (step : ℕ) → step < m → F.pre test step }
    ensures { (P : Set) → ((step : ℕ) (told : Bool) → step < m → F.post test step told → told ≡ P step) → result.words ≡ words_of 16 (met (up_to m) P) }
{
    let mut passed = Steps::empty();
    for step in 0..m {
        if test(step) {
            passed = passed.with(step);
        }
    }
    passed
}
