// Writing parts of a line of the output.
ghost use Rattle.std.specs.Iterator.{IsFinite};

use std::fmt::Display;
use std::io;
use task::Refusal;

/// Writes a blank and each value.
pub(crate) fn tell<I: Iterator + Drop>(rt: &impl Print, values: I) -> io::Result<()>
where
    I::Item: Display + Drop,
    requires can { I.can_next values }
    requires ends { IsFinite (I.remaining values) }
{
    for value in values {
        print!(rt; " {value}")?;
    }
    Ok(())
}

/// Writes what an operation answered: that nothing is wrong, or the refusal.
pub fn answer<T>(rt: &impl Print, answer: &Result<T, Refusal>) -> io::Result<()> {
    match answer {
        Ok(_) => print!(rt; ": fine"),
        Err(refusal) => print!(rt; ": {refusal}"),
    }
}
