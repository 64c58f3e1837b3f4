// The lines of the report.
use crate::text::Page;
use sets::{Bits, Facts, Few, Steps};
use task::Sizes;

impl Page<'_> {
    ghost use Rattle.std.specs.Prelude.{◌*◌, ◌++◌, length};
    ghost use Rattle.sets.specs.Sets.{members};
    ghost use Rattle.sets.specs.Words.{has};
    ghost use Rattle.report.specs.Text.{line, task_line, reach_line, must_line, take_line};
    ghost use Rattle.report.specs.Writing.{Writes};
    ghost use Rattle.report.specs.Workers.{table_cuts};

    /// Writes a line: a word and numbers.
    pub(crate) fn line(&mut self, word: &[u8], numbers: &[usize])
        ensures { Writes (line word.now numbers.now) self.old self.new }
    {
        self.text(word);
        self.fields(numbers);
        self.text(b"\n");
    }

    /// Writes a line: a word, numbers and the members of a set.
    pub(crate) fn members_line<const WORDS: usize>(
        &mut self,
        word: &[u8],
        numbers: &[usize],
        set: Bits<WORDS>,
    )
    where
        Bits<WORDS>: Few<WORDS>,
        ensures { Writes
            (line word.now (numbers.now ++ members (WORDS * 64) (has set.entry.words)))
            self.old self.new }
    {
        self.text(word);
        self.fields(numbers);
        self.members(set);
        self.text(b"\n");
    }

    /// Writes the lines of a task's sizes and of its sets.
    pub(crate) fn task_lines(&mut self, sizes: Sizes, reached: Facts, passed: Facts, taken: Steps)
        ensures { Writes
            (task_line sizes.facts sizes.steps
            ++ reach_line 256 (has reached.words)
            ++ must_line 256 (has passed.words)
            ++ take_line 1024 (has taken.words))
            self.old self.new }
    {
        self.line(b"task", &[sizes.facts, sizes.steps]);
        self.members_line(b"reach", &[], reached);
        self.members_line(b"must", &[], passed);
        self.members_line(b"take", &[], taken);
    }

    /// Writes the line of each round: the cut's cost and then its steps.
    pub(crate) fn cut_lines(&mut self, rows: &[u64], prices: &[u32])
        ensures { Writes (table_cuts (length prices.now) 0 rows.now prices.now) self.old self.new }
    {
        for (round, &price) in prices.iter().enumerate() {
            // Stays a cast: usize has no From<u32>, and `try_from(..).unwrap()` is no plainer.
            self.members_line(b"cut", &[price as usize], Steps::row(rows, round));
        }
    }
}
