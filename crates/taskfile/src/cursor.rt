// What the judge goes by: the room for a task, and where it is in the file.
ghost use Rattle.std.specs.Prelude.{◌≡◌, ◌≤◌};
ghost use Rattle.taskfile.specs.Judging.{begin};
ghost use Rattle.taskfile.specs.Answer.{fits_in};

use sets::Facts;
use task::Sizes;

/// How many words or costs the lent tables have room for.
#[derive(Clone, Copy, Debug, PartialEq, Eq)]
pub struct Room {
    pub needs: usize,
    pub sets: usize,
    pub clears: usize,
    pub costs: usize,
    pub start: usize,
    pub goal: usize,
}

/// An offset in a file, with what the records before it say: the head's numbers, if it has been read,
/// and how many steps have begun.
#[derive(Clone, Copy, Debug, PartialEq, Eq)]
pub struct Cursor {
    pub at: usize,
    pub head: Option<Sizes>,
    pub begun: usize,
}

impl Room {
    /// Whether the tables of a task of m steps fit.
    #[tactic(auto, unfolding(crate::specs::Answer::fits_in, sets::specs::Tests::both, sets::specs::Tests::no, sets::specs::Tests::below))]
    pub(crate) fn fits(self, m: usize) -> bool
        requires { m ≤ 1024 }
        ensures { result ≡ fits_in self m }
    {
        let words = Facts::WORDS * m;
        self.needs >= words
            && self.sets >= words
            && self.clears >= words
            && self.costs >= m
            && self.start >= Facts::WORDS
            && self.goal >= Facts::WORDS
    }
}

impl Cursor {
    /// Before the first record.
    pub fn begin() -> Cursor
        ensures { result ≡ begin }
    {
        Cursor {
            at: 0,
            head: None,
            begun: 0,
        }
    }
}
