// The records of a file, one after another.
ghost use Rattle.std.specs.Prelude.{◌≡◌};
ghost use Rattle.std.specs.Iterator.{YieldsFirst, item_count};
ghost use Rattle.taskfile.specs.Workers.{records_left};

use crate::format::{Record, record_at};

/// The records of a file from an offset on, up to an end or to what is no whole record.
#[derive(Clone, Copy, Debug)]
pub(crate) struct Records<'a> {
    file: &'a [u8],
    at: usize,
}

impl<'a> Records<'a> {
    /// All of them.
    pub(crate) fn new(file: &'a [u8]) -> Self
        ensures file { result.file.now ≡ file.now }
        ensures at { result.at ≡ 0 }
    {
        Records { file, at: 0 }
    }
}

impl Iterator for Records<'_> {
    type Item = Record;

    ghost next_gives = { YieldsFirst records_left };

    ghost remaining = { item_count records_left };

    fn next(&mut self) -> Option<Record> {
        let record = record_at(self.file, self.at).ok()?;
        self.at = match record {
            Record::End => self.file.len(),
            _ => self.at + record.size(),
        };
        Some(record)
    }
}
