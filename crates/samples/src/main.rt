// Prints the report on each file that an argument names, below its name. What cannot be read is
// named on standard error.
#![tactic(auto)]

use arrayvec::ArrayVec;
use std::env::{Env, FillError};
use std::fs::File;
use std::{io, str};

// Prints the name of a file on a line of its own, and the report on it.
fn print_file(rt: &HostRuntime, name: &str) -> io::Result<()> {
    let mut file = ArrayVec::new();
    match File::open(rt, name).and_then(|from| report::read_into(from, &mut file)) {
        Ok(()) => {
            println!(rt; "{name}")?;
            report::print_report(file.as_slice(), &mut io::writer(rt))
        }
        Err(error) => eprintln!(rt; "{name}: {error}"),
    }
}

// Prints the report on the file that an argument's bytes name.
fn print_argument(rt: &HostRuntime, name: &[u8]) -> io::Result<()> {
    match str::from_utf8(name) {
        Ok(name) => print_file(rt, name),
        Err(error) => eprintln!(rt; "argument: {error}"),
    }
}

fn main(rt: HostRuntime) -> io::Result<()> {
    let mut name = [0u8; 4096];
    // Stays by number: std's `args` allocates, and a program has fixed memory.
    for number in 1..usize::MAX {
        match rt.arg(number, &mut name) {
            Ok(length) => print_argument(&rt, &name[..length])?,
            Err(FillError::TooLong) => eprintln!(rt; "argument: File name too long")?,
            Err(FillError::NotPresent) => break,
        }
    }
    Ok(())
}
