// The cost of a cut, and the costs left after it.
ghost use Rattle.std.specs.Prelude.{◌≡◌, ℕ, ◌≤◌, length};
ghost use Rattle.sets.specs.Tests.{Is};
ghost use Rattle.sets.specs.Words.{has};
ghost use Rattle.task.specs.Limits.{limits};
ghost use Rattle.distance.specs.Distance.{entry, least};
ghost use Rattle.cuts.specs.Workers.{taken_off};

use sets::Steps;
use task::Task;

// The least cost among the steps of a cut; the mark where there is none.
#[tactic(auto, using(crate::proofs::CostsTaken::least_more), unfolding(sets::specs::Tests::pick, distance::specs::Distance::least))]
pub(crate) fn cheapest(costs: &[u32], cut: Steps) -> u32
    ensures { result ≡ least limits.mark (length costs.now) (has cut.words) (entry costs.now) }
{
    let mut least = Task::MARK;
    for (step, &cost) in costs.iter().enumerate() {
        if cut.has(step) && cost < least {
            least = cost;
        }
    }
    least
}

// Copies the costs. A loop: std's `copy_from_slice` moves so many numbers by a function of C's that the
// exported archive would ask for from outside.
#[tactic(auto, using(crate::proofs::CostsTaken::copied_next, crate::proofs::CostsTaken::copied_all))]
pub(crate) fn copy(costs: &[u32], left: &mut [u32])
    requires { length left.old ≡ length costs.now }
    ensures { left.new ≡ costs.now }
{
    for (step, own) in left.iter_mut().enumerate() {
        *own = costs[step];
    }
}

// Takes a cost off each step of a cut.
#[tactic(auto, using(crate::proofs::CostsTaken::taken_whole), unfolding(sets::specs::Tests::pick))]
pub(crate) fn take_off(cut: Steps, cost: u32, costs: &mut [u32])
    requires { (s : ℕ) → Is (has cut.words s) → cost ≤ entry costs.old s }
    ensures { costs.new ≡ taken_off (has cut.words) cost costs.old }
{
    for (step, left) in costs.iter_mut().enumerate() {
        if cut.has(step) {
            *left -= cost;
        }
    }
}
