// The report on a task file: its lines, written into a lent buffer.
//
// `report` has no `requires`. Its contract cites specs/Report.antt, which has the whole text;
// specs/Text.antt says what a line is. proofs/Lengths.antt has that no report is longer than
// LONGEST.
#![tactic(auto)]

use text::Page;

mod analysis;
mod files;
mod lines;
mod printing;
mod text;

ghost use Rattle.std.specs.Prelude.{◌≡◌, min, length};
ghost use Rattle.report.specs.Page.{laid, Counts};
ghost use Rattle.report.specs.Report.{longest_report, report_text};
ghost use Rattle.report.specs.Writing.{Writes};

pub use files::{read_file, read_into};
pub use printing::print_report;

/// How many steps there is room for.
pub const STEPS: usize = 256;

/// The most bytes that a report has.
pub const LONGEST: usize = 300000;

/// LONGEST as a value, for whoever cannot name a constant.
pub fn longest() -> usize
    ensures { result ≡ longest_report }
{
    LONGEST
}

/// Writes the report on a task file from the buffer's beginning on, as far as there is room, and
/// answers how many bytes it wrote; what lies beyond them stays as it was.
pub fn report(file: &[u8], out: &mut [u8]) -> usize
    ensures text { out.new ≡ laid (report_text file.now) out.old }
    ensures answer { result ≡ min (length (report_text file.now)) (length out.old) }
    ensures count { Counts result out.new }
{
    let mut page = Page::new(out);
    write_report(file, &mut page);
    page.at
}

// Writes the report on a task file: what is found of the task, or the one line of the refusal.
fn write_report(file: &[u8], page: &mut Page<'_>)
    ensures { Writes (report_text file.now) page.old page.new }
{
    // Stays number and place, not Display: std promises nothing of what a `write!` that fails has
    // written.
    if let Err(refusal) = analysis::file_report(file, page) {
        page.line(b"refused", &[usize::from(refusal.number()), refusal.place]);
    }
}
