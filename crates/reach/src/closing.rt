// Passes that add to a set what a rule gives of it, until one adds nothing.
ghost use Rattle.reach.specs.Closing.{Facts, Closes};

use crate::Reached;
use sets::Facts;

/// A rule that gives facts of a set of facts.
pub trait Rule {
    /// Whether the second set may be given of the first.
    ghost gives: { Self → Facts → Facts → Type 0 };

    /// What the rule gives of a set.
    fn given(&self, set: Facts) -> Facts
        ensures { gives self.now set result };
}

/// Adds to the seeds what the rule gives of the set, pass by pass, until that adds nothing, and counts
/// the passes, the last one too.
pub fn close<R: Rule>(seeds: Facts, rule: &R) -> Reached
    ensures { Closes (R.gives rule.now) result.passes seeds result.set }
{
    let mut set = seeds;
    let mut passes: usize = 1;
    // Stays a loop: nothing is gone through by number, and the passes counted are part of the answer.
    loop {
        let given = rule.given(set);
        if given.within(set) {
            return Reached { set, passes };
        }
        set = set.joining(given);
        passes += 1;
    }
}
