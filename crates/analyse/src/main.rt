// Reads a task file from standard input and prints the report on it.
#![tactic(auto)]

use std::io;

fn main(rt: HostRuntime) -> io::Result<()> {
    let file = report::read_file(rt.reader())?;
    report::print_report(file.as_slice(), &mut io::writer(&rt))
}
