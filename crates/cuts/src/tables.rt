// The tables that the cuts are written into.
ghost use Rattle.std.specs.Prelude.{◌≡◌, ◌<◌, length, slice_set};
ghost use Rattle.sets.specs.Words.{with_row};

use sets::Steps;

// A row of sixteen words for the cut of each round, and the cut's cost.
#[derive(Drop)]
pub(crate) struct CutTables<'a> {
    pub rows: &'a mut [u64],
    pub prices: &'a mut [u32],
}

impl CutTables<'_> {
    ghost use Rattle.cuts.specs.Places.{KeepsPlaces};

    // Writes the cut of a round, and its cost.
    pub(crate) fn write(&mut self, round: usize, cut: Steps, cost: u32)
        requires { round < length self.old.prices.now }
        ensures places { KeepsPlaces self.old self.new }
        ensures rows { self.new.rows.now ≡ with_row 16 round cut.words self.old.rows.now }
        ensures prices { self.new.prices.now ≡ slice_set self.old.prices.now round cost }
    {
        cut.put_row(self.rows, round);
        self.prices[round] = cost;
    }
}
