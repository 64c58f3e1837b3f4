// Answers as structs of numbers, and sets as the words that a caller lends.
// Stays numbers side by side, 0 where there is nothing to say: the C interface.
ghost use Rattle.std.specs.Prelude.{◌≡◌};
ghost use Rattle.exports.specs.Answers.{answer_of, reach_answer_of, cuts_answer_of, replay_answer_of, read_answer_of};
ghost use Rattle.exports.specs.Written.{set_written};

use cuts::Cutting;
use reach::Reached;
use replay::Replayed;
use sets::Bits;
use task::{Refusal, Sizes};

/// Document 01's number of a refusal, and its place; both 0 where nothing is refused.
#[repr(C)]
#[derive(Clone, Copy, Debug, PartialEq, Eq)]
pub struct Answer {
    pub number: u64,
    pub place: u64,
}

/// The answer of reach: the number of passes beside it, 0 where the task is refused.
#[repr(C)]
#[derive(Clone, Copy, Debug, PartialEq, Eq)]
pub struct ReachAnswer {
    pub number: u64,
    pub place: u64,
    pub passes: u64,
}

/// The answer of cuts: the number of rounds and the floor beside it, both 0 where they are refused.
#[repr(C)]
#[derive(Clone, Copy, Debug, PartialEq, Eq)]
pub struct CutsAnswer {
    pub number: u64,
    pub place: u64,
    pub rounds: u64,
    pub floor: u64,
}

/// The answer of a replay: outcome 0 done with the cost, 1 stuck at the entry `place`, 2 short of the
/// goal, 3 refused with number and place.
#[repr(C)]
#[derive(Clone, Copy, Debug, PartialEq, Eq)]
pub struct ReplayAnswer {
    pub outcome: u64,
    pub number: u64,
    pub place: u64,
    pub cost: u64,
}

/// The answer of reading: the numbers of facts and steps beside it, both 0 where the file is refused.
#[repr(C)]
#[derive(Clone, Copy, Debug, PartialEq, Eq)]
pub struct ReadAnswer {
    pub number: u64,
    pub place: u64,
    pub facts: u64,
    pub steps: u64,
}

impl<T: Copy> From<Result<T, Refusal>> for Answer {
    ghost from_gives = { λ answered answer. answer ≡ answer_of answered };

    fn from(answered: Result<T, Refusal>) -> Self {
        match answered {
            Ok(_) => Answer {
                number: 0,
                place: 0,
            },
            Err(refusal) => {
                let number = u64::from(refusal.number());
                let place = refusal.place as u64;
                Answer { number, place }
            }
        }
    }
}

impl From<Result<Reached, Refusal>> for ReachAnswer {
    ghost from_gives = { λ reached answer. answer ≡ reach_answer_of reached };

    fn from(reached: Result<Reached, Refusal>) -> Self {
        let Answer { number, place } = reached.into();
        let passes = reached.map_or(0, |reached| reached.passes as u64);
        ReachAnswer {
            number,
            place,
            passes,
        }
    }
}

impl From<Result<Cutting, Refusal>> for CutsAnswer {
    ghost from_gives = { λ cutting answer. answer ≡ cuts_answer_of cutting };

    fn from(cutting: Result<Cutting, Refusal>) -> Self {
        let Answer { number, place } = cutting.into();
        let rounds = cutting.map_or(0, |cutting| cutting.rounds as u64);
        let floor = cutting.map_or(0, |cutting| u64::from(cutting.floor));
        CutsAnswer {
            number,
            place,
            rounds,
            floor,
        }
    }
}

impl From<Result<Replayed, Refusal>> for ReplayAnswer {
    ghost from_gives = { λ replayed answer. answer ≡ replay_answer_of replayed };

    fn from(replayed: Result<Replayed, Refusal>) -> Self {
        let Answer { number, place } = replayed.into();
        let (outcome, place, cost) = match replayed {
            Ok(Replayed::Done(cost)) => (0, 0, cost),
            Ok(Replayed::Stuck(entry)) => (1, entry as u64, 0),
            Ok(Replayed::Short) => (2, 0, 0),
            Err(_) => (3, place, 0),
        };
        ReplayAnswer {
            outcome,
            number,
            place,
            cost,
        }
    }
}

impl From<Result<Sizes, Refusal>> for ReadAnswer {
    ghost from_gives = { λ sizes answer. answer ≡ read_answer_of sizes };

    fn from(sizes: Result<Sizes, Refusal>) -> Self {
        let Answer { number, place } = sizes.into();
        let facts = sizes.map_or(0, |sizes| sizes.facts as u64);
        let steps = sizes.map_or(0, |sizes| sizes.steps as u64);
        ReadAnswer {
            number,
            place,
            facts,
            steps,
        }
    }
}

// Writes the words of a set into those lent, unless it is refused.
pub(crate) fn write_set<const WORDS: usize>(
    answered: Result<Bits<WORDS>, Refusal>,
    words: &mut [u64; WORDS],
)
    ensures { words.new ≡ set_written WORDS answered.entry words.old }
{
    if let Ok(set) = answered {
        words.copy_from_slice(&set.words);
    }
}
