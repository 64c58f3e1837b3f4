// The verdict on one record, by the cursor: 13, 1, 2, 6, 5, 14, 15.
ghost use Rattle.std.specs.Prelude.{◌≡◌, not, [], ◌∷◌};
ghost use Rattle.sets.specs.Tests.{no};
ghost use Rattle.task.specs.Check.{wrong_facts, wrong_steps};
ghost use Rattle.task.specs.Refusal.{first_refusal};
ghost use Rattle.task.specs.declared.refusal.Fault.TheVariants.{FactCount, StepCount, ShortResult};
ghost use Rattle.taskfile.specs.Judging.{record_verdict, refused_at};
ghost use Rattle.taskfile.specs.Answer.{fits_in};

use crate::cursor::{Cursor, Room};
use crate::format::Record;
use task::{Fault, Refusal, Sizes, Task};

impl Cursor {
    /// Whether a record is sound here: 13 unless the head is first and only once, start and goal
    /// stand after it and before the first step, and needs, sets and clears after a step; then its
    /// numbers.
    #[tactic(auto, unfolding(crate::specs::Judging::record_verdict, crate::specs::Judging::numbers_verdict, crate::specs::Judging::in_place, crate::specs::Judging::fact_in_place, crate::specs::Judging::refused_at, task::specs::Refusal::first_refusal, task::specs::Refusal::or_else, sets::specs::Tests::no, sets::specs::Tests::both, sets::specs::Tests::pick, sets::specs::Tests::same, sets::specs::Tests::below))]
    pub(crate) fn judge(self, room: Room, item: Record) -> Result<(), Refusal>
        ensures { result ≡ record_verdict (fits_in room) self item }
    {
        match (self.head, item) {
            (None, Record::Head(facts, steps)) => {
                let facts = usize::from(facts);
                let steps = usize::from(steps);
                self.judge_sizes(room, Sizes { facts, steps })
            }
            (Some(head), Record::Names(part, fact)) if part.is_first() == (self.begun == 0) => {
                self.unless(Fault::RecordFact, usize::from(fact) < head.facts)
            }
            (Some(head), Record::Step(cost)) => {
                self.unless(Fault::StepCost, cost <= Task::COST)?;
                self.unless(Fault::StepRecords, self.begun < head.steps)
            }
            (Some(head), Record::End) => {
                self.unless(Fault::StepRecords, self.begun == head.steps)
            }
            _ => Err(Fault::Misplaced.at(self.at)),
        }
    }

    // 1, 2 and 6: the sizes that a head says.
    #[tactic(auto, unfolding(crate::specs::Judging::refused_at, task::specs::Check::sizes_verdict, task::specs::Refusal::first_refusal, task::specs::Refusal::or_else, task::specs::Refusal::refused_if, sets::specs::Tests::no))]
    fn judge_sizes(self, room: Room, sizes: Sizes) -> Result<(), Refusal>
        ensures { result ≡ first_refusal (refused_at self.at (wrong_facts sizes.facts) FactCount ∷ refused_at self.at (wrong_steps sizes.steps) StepCount ∷ refused_at self.at (no (fits_in room sizes.steps)) ShortResult ∷ []) }
    {
        sizes.check().map_err(|refusal| refusal.fault.at(self.at))?;
        self.unless(Fault::ShortResult, room.fits(sizes.steps))
    }

    // Refuses with this fault, here, unless the test holds.
    #[tactic(auto, unfolding(crate::specs::Judging::refused_at))]
    fn unless(self, fault: Fault, holds: bool) -> Result<(), Refusal>
        ensures { result ≡ refused_at self.at (not holds) fault }
    {
        if holds {
            Ok(())
        } else {
            Err(fault.at(self.at))
        }
    }
}
