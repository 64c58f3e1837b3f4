// A round's justification graph: its zone, its region and the cut between them.
//
// The vertices are the facts and "begin", which has the number after the last fact and stays a number,
// as in specs/Cut.antt (lowest_farthest). The arcs of a step run from its chosen need to every fact that
// it sets. "begin" is never in the zone and always in the region, so both are sets of facts.
ghost use Rattle.std.specs.Prelude.{◌≡◌, ℕ, ◌<◌, length};
ghost use Rattle.sets.specs.Sets.{up_to, joined, met};
ghost use Rattle.sets.specs.Words.{has, words_of};
ghost use Rattle.task.specs.Lent.{lent};
ghost use Rattle.task.specs.Tables.{view};
ghost use Rattle.cuts.specs.Workers.{sets_into, zone_from, region_from, cut_from, cut_before, free_into, leads_from, zone_by, region_by, PassedOver, GrownTo};

use crate::choosing;
use reach::Rule;
use sets::{Facts, Steps};
use task::Task;

// The arcs of the steps that count.
#[derive(Clone, Copy)]
pub(crate) struct Graph<'a> {
    pub task: Task<'a>,
    // The steps that count.
    pub counted: Steps,
    // The chosen need of each step, as a vertex.
    pub chosen: &'a [u16],
    // The present cost of each step.
    pub costs: &'a [u32],
    pub ghost choice_each: { length chosen.now ≡ task.tables.sizes.steps },
    pub ghost cost_each: { length costs.now ≡ task.tables.sizes.steps },
}

impl Graph<'_> {
    // The steps that lead from the region into the zone of the goal's choice.
    #[tactic(auto, using(crate::proofs::OneRound::before_found))]
    pub(crate) fn cut_before(&self, choice: usize) -> Steps
        requires { choice < self.now.task.tables.sizes.facts }
        ensures { result.words ≡ words_of 16 (cut_before (view (lent self.now.task.tables)) self.now.costs.now (has self.now.counted.words) self.now.chosen.now choice) }
    {
        let zone = self.zone(choice);
        let region = self.region(zone);
        self.cut(zone, region)
    }

    // The facts from which steps that cost nothing lead to the goal's choice.
    fn zone(&self, choice: usize) -> Facts
        requires { choice < self.now.task.tables.sizes.facts }
        ensures { result.words ≡ words_of 4 (zone_from (view (lent self.now.task.tables)) self.now.costs.now (has self.now.counted.words) self.now.chosen.now choice) }
    {
        let last = Facts::empty().with(choice);
        reach::close(last, &ZoneGrowth { graph: self }).set
    }

    // The facts that can be reached from the start without entering the zone.
    fn region(&self, zone: Facts) -> Facts
        ensures { result.words ≡ words_of 4 (region_from (view (lent self.now.task.tables)) (has self.now.counted.words) self.now.chosen.now (has zone.words)) }
    {
        let start = self.task.tables.start_facts();
        reach::close(start, &RegionGrowth { graph: self, zone }).set
    }

    // The steps that lead from the region, or from "begin", into the zone.
    fn cut(&self, zone: Facts, region: Facts) -> Steps
        ensures { result.words ≡ words_of 16 (cut_from (view (lent self.now.task.tables)) (has self.now.counted.words) self.now.chosen.now (has zone.words) (has region.words)) }
    {
        choosing::steps_where(self.chosen.len(), |step| {
            self.leads_from(step, region) && self.sets_into(step, zone)
        })
    }

    // The zone with the step's chosen need, if that is a fact and the step costs nothing and sets a
    // fact of the zone.
    fn with_tail(&self, step: usize, zone: Facts) -> Facts
        requires { step < length self.now.chosen.now }
        ensures { result.words ≡ words_of 4 (joined (has zone.words) (met (up_to self.now.task.tables.sizes.facts) (zone_by (view (lent self.now.task.tables)) self.now.costs.now (has self.now.counted.words) self.now.chosen.now (has zone.words) step))) }
    {
        let tail = usize::from(self.chosen[step]);
        if tail < self.task.tables.sizes.facts && self.free_into(step, zone) {
            zone.with(tail)
        } else {
            zone
        }
    }

    // The region with what the step sets outside the zone, if it leads from the region.
    fn with_heads(&self, zone: Facts, step: usize, region: Facts) -> Facts
        requires { step < length self.now.chosen.now }
        ensures { result.words ≡ words_of 4 (joined (has region.words) (met (up_to self.now.task.tables.sizes.facts) (region_by (view (lent self.now.task.tables)) (has self.now.counted.words) self.now.chosen.now (has zone.words) (has region.words) step))) }
    {
        if self.leads_from(step, region) {
            region.joining(self.task.tables.sets_of(step).removing(zone))
        } else {
            region
        }
    }

    // Whether a step counts, costs nothing and sets a fact of a set.
    #[tactic(auto, unfolding(crate::specs::Workers::free_into, sets::specs::Tests::both, sets::specs::Tests::same))]
    fn free_into(&self, step: usize, set: Facts) -> bool
        requires { step < length self.now.costs.now }
        ensures { result ≡ free_into (view (lent self.now.task.tables)) self.now.costs.now (has self.now.counted.words) (has set.words) step }
    {
        self.costs[step] == 0 && self.counted.has(step) && self.sets_into(step, set)
    }

    // Whether a step sets a fact of a set.
    #[tactic(auto, using(crate::proofs::GrownSets::sets_told))]
    fn sets_into(&self, step: usize, set: Facts) -> bool
        ensures { result ≡ sets_into (view (lent self.now.task.tables)) (has set.words) step }
    {
        self.task.tables.sets_of(step).meeting(set).size() != 0
    }

    // Whether a step counts and its chosen need is "begin" or in a set.
    #[tactic(auto, unfolding(crate::specs::Workers::leads_from, crate::specs::Workers::tail_in, sets::specs::Tests::both, sets::specs::Tests::either, sets::specs::Tests::no, sets::specs::Tests::below))]
    fn leads_from(&self, step: usize, set: Facts) -> bool
        requires { step < length self.now.chosen.now }
        ensures { result ≡ leads_from (view (lent self.now.task.tables)) (has self.now.counted.words) self.now.chosen.now (has set.words) step }
    {
        let tail = usize::from(self.chosen[step]);
        self.counted.has(step) && (self.task.tables.sizes.facts <= tail || set.has(tail))
    }
}

// What a zone gives: itself, and the facts from which a step that costs nothing leads into it.
#[derive(Clone, Copy)]
struct ZoneGrowth<'g, 'a> {
    graph: &'g Graph<'a>,
}

// What a region gives: itself, and the facts outside the zone to which a step leads from it.
#[derive(Clone, Copy)]
struct RegionGrowth<'g, 'a> {
    graph: &'g Graph<'a>,
    zone: Facts,
}

impl Rule for ZoneGrowth<'_, '_> {
    ghost gives = { λ rule X Y. let graph = rule.graph.now in GrownTo graph.task.tables.sizes.facts (length graph.chosen.now) (zone_by (view (lent graph.task.tables)) graph.costs.now (has graph.counted.words) graph.chosen.now) X Y };

    fn given(&self, zone: Facts) -> Facts {
        let graph = self.graph;
        pass(graph.chosen.len(), zone, |step, zone| {
            graph.with_tail(step, zone)
        })
    }
}

impl Rule for RegionGrowth<'_, '_> {
    ghost gives = { λ rule X Y. let graph = rule.graph.now in GrownTo graph.task.tables.sizes.facts (length graph.chosen.now) (region_by (view (lent graph.task.tables)) (has graph.counted.words) graph.chosen.now (has rule.zone.words)) X Y };

    fn given(&self, region: Facts) -> Facts {
        let RegionGrowth { graph, zone } = *self;
        pass(graph.chosen.len(), region, |step, region| {
            graph.with_heads(zone, step, region)
        })
    }
}

// A pass over the steps below m. `grown` says what a step makes of a set.
fn pass<F: Fn(usize, Facts) -> Facts>(m: usize, set: Facts, grown: F) -> Facts
    requires { (step : ℕ) (set : _) → step < m → F.pre grown step set }
    ensures { PassedOver m (F.post grown) set.words result.words }
{
    let mut next = set;
    for step in 0..m {
        next = grown(step, next);
    }
    next
}
