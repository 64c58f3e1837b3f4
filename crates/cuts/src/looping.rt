// The rounds: each finds a cut, writes it and its cost, and takes the cost off the cut's steps.
ghost use Rattle.std.specs.Prelude.{◌≡◌, ◌*◌, ◌<◌, length, OnOk, IfOk, IfErr};
ghost use Rattle.sets.specs.Tests.{no, either, below};
ghost use Rattle.sets.specs.Words.{words_of};
ghost use Rattle.task.specs.Lent.{lent};
ghost use Rattle.task.specs.Tables.{view};
ghost use Rattle.reach.specs.Reach.{reach};
ghost use Rattle.cuts.specs.Workers.{counted_from};
ghost use Rattle.cuts.specs.Making.{Settled, RoundDue, RoundDone, RoundsDue, RoundsDone};

use crate::growing::Graph;
use crate::tables::CutTables;
use crate::{Cutting, choosing, costs};
use sets::Steps;
use task::{Fault, Refusal, Tables, Task};

// A checked task, and its steps that count.
#[derive(Clone, Copy)]
pub(crate) struct Rounds<'a> {
    task: Task<'a>,
    counted: Steps,
    ghost counted_is: { counted.words ≡ words_of 16 (counted_from (view (lent task.tables)) (reach (view (lent task.tables)))) },
}

impl<'a> Rounds<'a> {
    ghost use Rattle.cuts.specs.Answer.{cuts_verdict};
    ghost use Rattle.cuts.specs.Places.{KeepsPlaces};

    // The rounds of a task, if nothing is wrong with its tables, result tables of so many entries are
    // long enough, and some way leads to the goal: refusals 1 to 7.
    #[tactic(auto, using(crate::proofs::Due::not_no), unfolding(crate::specs::Answer::cuts_verdict, task::specs::Refusal::first_refusal, task::specs::Refusal::or_else, task::specs::Refusal::refused_if))]
    pub(crate) fn due(
        tables: Tables<'a>,
        words: usize,
        prices: usize,
        left: usize,
    ) -> Result<Self, Refusal>
        ensures same { IfOk result (λ rounds. rounds.task.tables ≡ tables.entry) }
        ensures fine { OnOk result (cuts_verdict (lent tables.entry) words prices left ≡ Ok tt) }
        ensures refused { IfErr result (λ refusal. cuts_verdict (lent tables.entry) words prices left ≡ Err refusal) }
    {
        let task = Task::check(tables)?;
        Fault::ShortResult.unless(has_room(tables.sizes.steps, words, prices, left))?;
        let reached = reach::reach_without(task, Steps::empty()).set;
        Fault::NoWay.unless(tables.goal_facts().within(reached))?;
        Ok(Rounds {
            task,
            counted: choosing::counted_steps(task, reached),
        })
    }

    // Makes all rounds from the task's costs: the cuts and their costs, and the costs left.
    pub(crate) fn make_all(&self, cuts: &mut CutTables<'_>, left: &mut [u32]) -> Cutting
        requires left { length left.old ≡ self.now.task.tables.sizes.steps }
        requires due { RoundsDue (view (lent self.now.task.tables)) cuts.old.rows.now cuts.old.prices.now }
        ensures places { KeepsPlaces cuts.old cuts.new }
        ensures done { RoundsDone (view (lent self.now.task.tables)) cuts.old.rows.now cuts.old.prices.now cuts.new.rows.now cuts.new.prices.now left.new result }
    {
        let tables = self.task.tables;
        let mut distances = [0; Task::FACTS];
        let distances = &mut distances[..tables.sizes.facts];
        costs::copy(tables.costs, left);
        distance::begin_distances(tables.start_facts(), distances);
        distance::settle(tables, left, Steps::empty(), distances);
        self.make_each(cuts, left, distances)
    }

    // Rounds as long as the goal's distance is above 0.
    fn make_each(
        &self,
        cuts: &mut CutTables<'_>,
        left: &mut [u32],
        distances: &mut [u32],
    ) -> Cutting
        requires costs { left.old ≡ self.now.task.tables.costs.now }
        requires settled { Settled (view (lent self.now.task.tables)) left.old distances.old }
        requires due { RoundsDue (view (lent self.now.task.tables)) cuts.old.rows.now cuts.old.prices.now }
        ensures places { KeepsPlaces cuts.old cuts.new }
        ensures done { RoundsDone (view (lent self.now.task.tables)) cuts.old.rows.now cuts.old.prices.now cuts.new.rows.now cuts.new.prices.now left.new result }
    {
        let goal = self.task.tables.goal_facts();
        let mut rounds = 0;
        let mut floor = 0;
        // Stays a while: it ends by the distance, and the rounds counted are part of the answer.
        while distance::set_distance(distances, goal) != 0 {
            let cost = self.make_one(rounds, cuts, left, distances);
            floor += cost;
            rounds += 1;
        }
        Cutting { rounds, floor }
    }

    // The round of that number: writes its cut and its cost, takes the cost off the cut's steps, and
    // settles the distances, which only fall. The cost.
    fn make_one(
        &self,
        round: usize,
        cuts: &mut CutTables<'_>,
        left: &mut [u32],
        distances: &mut [u32],
    ) -> u32
        requires room { round < length cuts.old.prices.now }
        requires due { RoundDue (view (lent self.now.task.tables)) left.old distances.old }
        ensures places { KeepsPlaces cuts.old cuts.new }
        ensures done { RoundDone (view (lent self.now.task.tables)) round cuts.old.rows.now cuts.old.prices.now left.old cuts.new.rows.now cuts.new.prices.now left.new distances.new result }
    {
        let tables = self.task.tables;
        let mut chosen = [0; Task::STEPS];
        let chosen = &mut chosen[..tables.sizes.steps];
        choosing::choose_needs(self.task, distances, chosen);
        let choice = choosing::farthest(tables.sizes.facts, distances, tables.goal_facts());
        let graph = Graph {
            task: self.task,
            counted: self.counted,
            chosen,
            costs: left,
        };
        let cut = graph.cut_before(choice);
        let cost = costs::cheapest(left, cut);
        cuts.write(round, cut, cost);
        costs::take_off(cut, cost, left);
        distance::settle(tables, left, Steps::empty(), distances);
        cost
    }
}

// Whether tables of so many entries have room for m rounds.
#[tactic(auto, unfolding(sets::specs::Tests::no, sets::specs::Tests::either, sets::specs::Tests::below))]
fn has_room(m: usize, words: usize, prices: usize, left: usize) -> bool
    ensures { result ≡ no (either (below words (16 * m)) (either (below prices m) (below left m))) }
{
    m <= words / Steps::WORDS && m <= prices && m <= left
}
