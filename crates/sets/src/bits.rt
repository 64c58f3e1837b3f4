// A set of numbers as so many words: what is in it, and the sets and numbers made of it.
ghost use Rattle.std.specs.Prelude.{◌≡◌, ◌*◌, ◌≤◌};
ghost use Rattle.std.proofs.Math.Dec.{lit≤};
ghost use Rattle.sets.specs.Sets.{none, up_to, added, dropped, joined, met, removed, within, count, lowest_if_any};
ghost use Rattle.sets.specs.Words.{has, words_of, row, with_row};

use crate::members::Members;
use crate::slices;

/// Those numbers below WORDS * 64 whose bits are 1.
#[derive(Clone, Copy, Debug, PartialEq, Eq)]
pub struct Bits<const WORDS: usize> {
    pub words: [u64; WORDS],
}

/// A set of facts: numbers below 256.
pub type Facts = Bits<4>;

/// A set of steps: numbers below 1024.
pub type Steps = Bits<16>;

impl<const WORDS: usize> Bits<WORDS> {
    /// The set with no member.
    #[tactic(auto, using(crate::proofs::Methods::no_members))]
    pub fn empty() -> Self
        ensures { result.words ≡ words_of WORDS none }
    {
        Bits { words: [0; WORDS] }
    }

    /// All numbers below n that a set has room for.
    pub fn up_to(n: usize) -> Self
        ensures { result.words ≡ words_of WORDS (up_to n) }
    {
        let mut words = [0; WORDS];
        slices::fill_up_to(&mut words, n);
        Bits { words }
    }

    /// The row of that number of a table of such sets, WORDS words each. Words past the table's end
    /// hold nothing.
    pub fn row(table: &[u64], number: usize) -> Self
        ensures { result.words ≡ words_of WORDS (has (row WORDS number table.now)) }
    {
        let mut words = [0; WORDS];
        slices::copy_row(table, number, &mut words);
        Bits { words }
    }

    /// Makes the set the row of that number of a table of such sets; the table stays as it was where
    /// it has no such row.
    pub fn put_row(self, table: &mut [u64], number: usize)
        ensures { table.new ≡ with_row WORDS number self.entry.words table.old }
    {
        slices::write_row(&self.words, table, number);
    }

    /// Whether f is a member.
    #[tactic(auto, using(crate::proofs::Methods::has_bit, crate::proofs::Words::has_past))]
    pub fn has(self, f: usize) -> bool
        ensures { result ≡ has self.entry.words f }
    {
        match self.words.get(f / 64) {
            Some(word) => (*word >> (f % 64)) & 1 == 1,
            None => false,
        }
    }

    /// The set with f put in; the set as it was where there is no room for f.
    pub fn with(mut self, f: usize) -> Self
        ensures { result.words ≡ words_of WORDS (added (has self.entry.words) f) }
    {
        if f / 64 < WORDS {
            self.words[f / 64] |= 1 << (f % 64);
        }
        self
    }

    /// The set with f taken out.
    pub fn without(mut self, f: usize) -> Self
        ensures { result.words ≡ words_of WORDS (dropped (has self.entry.words) f) }
    {
        if f / 64 < WORDS {
            self.words[f / 64] &= !(1 << (f % 64));
        }
        self
    }

    /// What is in this set or in the other.
    pub fn joining(self, other: Self) -> Self
        ensures { result.words ≡ words_of WORDS (joined (has self.entry.words) (has other.entry.words)) }
    {
        let mut words = self.words;
        slices::join_into(&mut words, &other.words);
        Bits { words }
    }

    /// What is in both sets.
    pub fn meeting(self, other: Self) -> Self
        ensures { result.words ≡ words_of WORDS (met (has self.entry.words) (has other.entry.words)) }
    {
        let mut words = self.words;
        slices::meet_into(&mut words, &other.words);
        Bits { words }
    }

    /// What is in this set and not in the other.
    pub fn removing(self, other: Self) -> Self
        ensures { result.words ≡ words_of WORDS (removed (has self.entry.words) (has other.entry.words)) }
    {
        let mut words = self.words;
        slices::remove_from(&mut words, &other.words);
        Bits { words }
    }

    /// Whether every member of this set is one of the other.
    pub fn within(self, other: Self) -> bool
        ensures { result ≡ within (WORDS * 64) (has self.entry.words) (has other.entry.words) }
    {
        slices::all_within(&self.words, &other.words)
    }
}

/// Sets of at most sixteen words: their numbers, and how many members there are, fit their types.
pub trait Few<const WORDS: usize> {
    ghost few: { WORDS ≤ 16 };
}

impl Few<4> for Facts {
    ghost few = { lit≤ tt };
}

impl Few<16> for Steps {
    ghost few = { lit≤ tt };
}

impl<const WORDS: usize> Bits<WORDS>
where
    Bits<WORDS>: Few<WORDS>,
{
    /// How many members there are.
    pub fn size(self) -> u32
        ensures { result ≡ count (WORDS * 64) (has self.entry.words) }
    {
        slices::count_members(&self.words)
    }

    /// The lowest member, if there is one.
    pub fn lowest(self) -> Option<usize>
        ensures { result ≡ lowest_if_any (WORDS * 64) (has self.entry.words) }
    {
        slices::lowest_member(&self.words)
    }

    /// The members, lowest first: `for f in set.members()`.
    pub fn members(self) -> Members<WORDS>
        ensures { result.left ≡ self.entry }
    {
        Members::of(self)
    }
}

// Stays two impls: `ROOM = WORDS * 64` in the generic one proves, but callers' proofs don't learn its
// value then.
impl Facts {
    /// How many words a set has.
    pub const WORDS: usize = 4;

    /// How many numbers it has room for: facts are numbered from 0 up to, not including, this.
    pub const ROOM: usize = 256;
}

impl Steps {
    /// How many words a set has.
    pub const WORDS: usize = 16;

    /// How many numbers it has room for: steps are numbered from 0 up to, not including, this.
    pub const ROOM: usize = 1024;
}

// The numbers of words are those of the types.
const _: Facts = Bits {
    words: [0; Facts::WORDS],
};

const _: Steps = Bits {
    words: [0; Steps::WORDS],
};

const _: () = prove!(Facts::ROOM == Facts::WORDS * 64);

const _: () = prove!(Steps::ROOM == Steps::WORDS * 64);
