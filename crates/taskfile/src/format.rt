// The records of a task file: one byte of kind and a body whose length the kind fixes.
ghost use Rattle.std.specs.Prelude.{◌≡◌};
ghost use Rattle.taskfile.specs.Records.{size_of, is_first, found_at};
ghost use Rattle.taskfile.specs.Workers.{body_at};

use crate::kind::Kind;
use task::{Fault, Refusal};

/// What a fact is named for: to hold at the start or the goal, or by the step before it.
#[derive(Clone, Copy, Debug, PartialEq, Eq)]
pub enum Part {
    Start,
    Goal,
    Needs,
    Sets,
    Clears,
}

impl Part {
    /// Whether such a fact is named before the first step; the others are named after one.
    pub(crate) fn is_first(self) -> bool
        ensures { result ≡ is_first self }
    {
        matches!(self, Part::Start | Part::Goal)
    }
}

/// A record of the file: the end; the head with the numbers of facts and steps; the next step with
/// its cost; or a fact, with what it is named for. That is a part in each record that is read, and
/// may be anything, a byte too, in one that a caller makes.
#[derive(Clone, Copy, Debug, PartialEq, Eq, Drop)]
pub enum Record<P = Part> {
    End,
    Head(u16, u16),
    Step(u32),
    Names(P, u16),
}

impl Record {
    /// The most bytes that a file has.
    pub const FILE: usize = 65535;
}

impl<P: Drop> Record<P> {
    /// How many bytes it has.
    pub fn size(self) -> usize
        ensures { result ≡ size_of self }
    {
        match self {
            Record::End => 1,
            Record::Head(_, _) | Record::Step(_) => 5,
            Record::Names(_, _) => 3,
        }
    }
}

/// The record at an offset of the file. Refused there: 11 for a kind that there is not, 12 for a
/// record that the file ends inside of; so past the file's end 12.
pub fn record_at(file: &[u8], at: usize) -> Result<Record, Refusal>
    ensures { result ≡ found_at file.now at }
{
    if at >= file.len() {
        return Err(Fault::CutOff.at(at));
    }
    match Kind::try_from(file[at]) {
        Ok(kind) => body_at(kind, &file[at + 1..]).ok_or(Fault::CutOff.at(at)),
        Err(_) => Err(Fault::RecordKind.at(at)),
    }
}

// The record of a kind whose body these bytes begin with; `None` where they are too few.
#[tactic(auto, unfolding(crate::specs::Workers::body_at, crate::specs::Records::body_length, crate::specs::Records::record_of, crate::specs::Records::number_at, sets::specs::Tests::pick, sets::specs::Tests::below))]
fn body_at(kind: Kind, bytes: &[u8]) -> Option<Record>
    ensures { result ≡ body_at kind bytes.now }
{
    match (kind, bytes) {
        (Kind::End, _) => Some(Record::End),
        (Kind::Head, [a, b, c, d, ..]) => Some(Record::Head(
            u16::from_le_bytes([*a, *b]),
            u16::from_le_bytes([*c, *d]),
        )),
        (Kind::Step, [a, b, c, d, ..]) => {
            Some(Record::Step(u32::from_le_bytes([*a, *b, *c, *d])))
        }
        (Kind::Names(part), [a, b, ..]) => {
            Some(Record::Names(part, u16::from_le_bytes([*a, *b])))
        }
        _ => None,
    }
}
