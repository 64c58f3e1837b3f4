// Why something that is asked of the library is refused: what is wrong, and where.
ghost use Rattle.std.specs.Prelude.{◌≡◌, not, Some};
ghost use Rattle.task.specs.Refusal.{number_of, refusal_text, refused_if};

use std::error::Error;
use std::fmt;

/// What is wrong, in the order of the numbers of refusals, 1 to 16.
#[derive(Clone, Copy, Debug, PartialEq, Eq)]
pub enum Fault {
    /// 1: a task has no facts or more than 256.
    FactCount,
    /// 2: a task has more than 1,024 steps.
    StepCount,
    /// 3: a table of a task has another length than its sizes say.
    TableLength,
    /// 4: a set holds a fact that the task does not have.
    FactNumber,
    /// 5: a step costs more than 65,535.
    StepCost,
    /// 6: a table for results is too short.
    ShortResult,
    /// 7: no way leads to the goal.
    NoWay,
    /// 8: a walk has more than 65,535 entries.
    WalkLength,
    /// 9: a number names no step of the task.
    StepNumber,
    /// 10: the row asked for is neither needs nor sets.
    RowKind,
    /// 11: a file has a record of no known kind.
    RecordKind,
    /// 12: a file ends inside a record or before its end record.
    CutOff,
    /// 13: a record of a file is out of place.
    Misplaced,
    /// 14: a record of a file names a fact that the task does not have.
    RecordFact,
    /// 15: a file has another number of step records than its head says.
    StepRecords,
    /// 16: a file is longer than 65,535 bytes.
    FileLength,
}

/// What is wrong, as its fault or as a bare number, and its place: the entry of a walk, the offset of a
/// record in a file, and 0 where it has no place.
#[derive(Clone, Copy, Debug, PartialEq, Eq, Drop)]
pub struct Refusal<F = Fault> {
    pub fault: F,
    pub place: usize,
}

impl Fault {
    /// The number of the refusal.
    pub fn number(self) -> u8
        ensures { result ≡ number_of self }
    {
        match self {
            Fault::FactCount => 1,
            Fault::StepCount => 2,
            Fault::TableLength => 3,
            Fault::FactNumber => 4,
            Fault::StepCost => 5,
            Fault::ShortResult => 6,
            Fault::NoWay => 7,
            Fault::WalkLength => 8,
            Fault::StepNumber => 9,
            Fault::RowKind => 10,
            Fault::RecordKind => 11,
            Fault::CutOff => 12,
            Fault::Misplaced => 13,
            Fault::RecordFact => 14,
            Fault::StepRecords => 15,
            Fault::FileLength => 16,
        }
    }

    /// The refusal for this fault at a place.
    pub fn at(self, place: usize) -> Refusal
        ensures { result ≡ record { fault = self; place = place } }
    {
        Refusal { fault: self, place }
    }

    /// Refuses with this fault, at place 0, unless the test holds.
    #[tactic(auto, unfolding(crate::specs::Refusal::refused_if))]
    pub fn unless(self, holds: bool) -> Result<(), Refusal>
        ensures { result ≡ refused_if (not holds) self }
    {
        if holds { Ok(()) } else { Err(self.at(0)) }
    }
}

impl From<Fault> for u8 {
    ghost from_gives = { λ fault number. number ≡ number_of fault };

    fn from(fault: Fault) -> u8 {
        fault.number()
    }
}

impl<F: Into<u8>> Refusal<F> {
    /// The number of the refusal. One that is made by hand of a bare number, whichever it is, gives that
    /// number back.
    pub fn number(self) -> u8
        ensures { F.converts self.fault result }
    {
        self.fault.into()
    }
}

impl fmt::Display for Refusal {
    ghost output = { λ refusal. Some (refusal_text refusal) };

    fn fmt<W: fmt::Write>(&self, f: &mut fmt::Formatter<W>) -> fmt::Result {
        let number = self.number();
        let place = self.place;
        write!(f, "refused {number} {place}")
    }
}

impl Error for Refusal {}
