// The members of a set one after the other: `for f in set.members()`.
ghost use Rattle.std.specs.Prelude.{◌≡◌, ◌*◌, ◌≤◌};
ghost use Rattle.std.specs.Iterator.{YieldsFirst, item_count};
ghost use Rattle.sets.specs.Sets.{members};
ghost use Rattle.sets.specs.Words.{has, words_of};

use crate::bits::Bits;
use crate::slices;

/// The members of a set that are still to come, lowest first.
#[derive(Clone, Copy, Debug)]
pub struct Members<const WORDS: usize> {
    left: Bits<WORDS>,
    // so few words that each number fits
    pub ghost few: { WORDS ≤ 16 },
    // words of their own members: so many, and each of 64 bits
    pub ghost whole: { left.words ≡ words_of WORDS (has left.words) },
}

impl<const WORDS: usize> Members<WORDS> {
    // All members of a set of so few words.
    pub(crate) fn of(set: Bits<WORDS>) -> Self
        requires { WORDS ≤ 16 }
        ensures { result.left ≡ set.entry }
    {
        Members { left: set }
    }
}

impl<const WORDS: usize> Iterator for Members<WORDS> {
    type Item = usize;

    ghost next_gives = { YieldsFirst (λ s. members (WORDS * 64) (has s.left.words)) };

    ghost remaining = { item_count (λ s. members (WORDS * 64) (has s.left.words)) };

    fn next(&mut self) -> Option<usize> {
        let lowest = slices::lowest_member(&self.left.words)?;
        self.left = self.left.without(lowest);
        Some(lowest)
    }
}
