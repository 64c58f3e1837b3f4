// The judge: one record after another, the first fault wins.
ghost use Rattle.std.specs.Prelude.{◌≡◌, ◌+◌, ◌≤◌, length};
ghost use Rattle.taskfile.specs.Records.{size_of};
ghost use Rattle.taskfile.specs.Judging.{begin, went_on, judged_at, records_verdict, file_verdict};
ghost use Rattle.taskfile.specs.Answer.{fits_in};
ghost use Rattle.taskfile.specs.Workers.{CanCount};

use crate::cursor::{Cursor, Room};
use crate::format::{Record, record_at};
use task::{Fault, Refusal, Sizes};

/// Whether a file is sound and its task goes into tables of these sizes: 16 before anything else.
#[tactic(auto, unfolding(crate::specs::Judging::file_verdict, crate::specs::Judging::refused_at, task::specs::Refusal::or_else, sets::specs::Tests::below))]
pub fn judge_file(file: &[u8], room: Room) -> Result<(), Refusal>
    ensures { result ≡ file_verdict (fits_in room) file.now }
{
    if file.len() > Record::FILE {
        return Err(Fault::FileLength.at(Record::FILE));
    }
    judge_records(file, room)
}

// Whether its records are sound, in file order.
fn judge_records(file: &[u8], room: Room) -> Result<(), Refusal>
    ensures { result ≡ records_verdict (fits_in room) file.now (length file.now + 1) begin }
{
    let mut cursor = Cursor::begin();
    while let Some(next) = judge_next(file, room, cursor)? {
        cursor = next;
    }
    Ok(())
}

/// Judges the record at the cursor: the cursor after it; `None` where it is the end of a sound file;
/// or the refusal of the file.
#[tactic(auto, unfolding(crate::specs::Judging::judged_at, crate::specs::Judging::found_judged, crate::specs::Judging::if_fine, sets::specs::Tests::pick, sets::specs::Tests::below))]
pub fn judge_next(file: &[u8], room: Room, cursor: Cursor) -> Result<Option<Cursor>, Refusal>
    ensures { result ≡ judged_at (fits_in room) file.now cursor }
{
    if cursor.at >= file.len() {
        return Err(Fault::CutOff.at(file.len()));
    }
    let item = record_at(file, cursor.at)?;
    cursor.judge(room, item)?;
    cursor.go_on(item, file.len())
}

impl Cursor {
    // Where a sound record leads in a file of that size: on, past it, or after an end to the end of
    // the file, where a byte after it is 13 there.
    #[tactic(auto, unfolding(crate::specs::Judging::went_on, crate::specs::Judging::refused_at, task::specs::Refusal::answered, sets::specs::Tests::below))]
    fn go_on(self, item: Record, size: usize) -> Result<Option<Cursor>, Refusal>
        requires inside { self.at + size_of item ≤ size }
        requires counted { CanCount self item }
        ensures { result ≡ went_on size self item }
    {
        let at = self.at + item.size();
        match item {
            Record::End if at < size => Err(Fault::Misplaced.at(at)),
            Record::End => Ok(None),
            Record::Head(facts, steps) => Ok(Some(Cursor {
                at,
                head: Some(Sizes {
                    facts: usize::from(facts),
                    steps: usize::from(steps),
                }),
                begun: 0,
            })),
            Record::Step(_) => Ok(Some(Cursor {
                at,
                begun: self.begun + 1,
                ..self
            })),
            Record::Names(_, _) => Ok(Some(Cursor { at, ..self })),
        }
    }
}
