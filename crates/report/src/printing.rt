// The report on a task file as a program prints it, in fixed memory.
ghost use Rattle.std.specs.Prelude.{OnOk};
ghost use Rattle.std.specs.Io.KnownBytes.{Appends};
ghost use Rattle.report.specs.Report.{report_text};

use crate::{LONGEST, report};
use std::io;
use std::io::Write;

/// Prints the report on a task file.
pub fn print_report<W: Write>(file: &[u8], to: &mut W) -> io::Result<()>
    ensures { OnOk result (Appends (W.contents to.old) (W.contents to.new) (report_text file.now)) }
{
    let mut text = [0; LONGEST];
    let written = report(file, &mut text);
    to.write_all(&text[..written])
}
