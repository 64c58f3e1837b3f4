// What no way does without, in document 01's examples P1 to P10, a line a case.
use crate::line::{answer, tell};
use crate::tasks::{EITHER_STEP, FIRST, GOAL_IN_START, NO_STEPS, ONE_FACT_MORE, SECOND};
use sets::{Facts, Steps};
use std::io;
use task::Tables;

// The must-pass facts and steps of a task; its steps clear all that they set, which makes no
// difference.
fn must_line(rt: &impl Print, name: &str, tables: Tables<'_>) -> io::Result<()> {
    let tables = Tables {
        clears: tables.sets,
        ..tables
    };
    let passed = must::must_pass(tables);
    print!(rt; "{name}")?;
    answer(rt, &passed)?;
    print!(rt; ", must")?;
    tell(rt, passed.unwrap_or(Facts::empty()).members())?;
    print!(rt; ", take")?;
    tell(
        rt,
        must::must_take(tables).unwrap_or(Steps::empty()).members(),
    )?;
    println!(rt)
}

/// P1 to P10.
pub fn must_pass(rt: &impl Print) -> io::Result<()> {
    must_line(rt, "P1 to P4", FIRST)?;
    must_line(rt, "P5, P6", SECOND)?;
    must_line(rt, "P7", GOAL_IN_START)?;
    must_line(rt, "P8", NO_STEPS)?;
    must_line(rt, "P9", EITHER_STEP)?;
    must_line(rt, "P10", ONE_FACT_MORE)
}

// The rows of the first task, whose steps clear all that they need, into a table that is lent.
fn rows_lines(rt: &impl Print, rows: &mut [u64]) -> io::Result<()> {
    let tables = Tables {
        clears: FIRST.needs,
        ..FIRST
    };
    print!(rt; "must rows, words {}", rows.len())?;
    answer(rt, &must::must_rows(tables, rows))?;
    print!(rt; ", table")?;
    tell(rt, rows.iter())?;
    println!(rt)?;
    print!(rt; "just-before rows, words {}", rows.len())?;
    answer(rt, &must::just_before_rows(tables, rows))?;
    print!(rt; ", table")?;
    tell(rt, rows.iter())?;
    println!(rt)
}

/// Tables that held 7 everywhere: of just enough words, of two more, and of one too few.
pub fn rows(rt: &impl Print) -> io::Result<()> {
    rows_lines(rt, &mut [7; 20])?;
    rows_lines(rt, &mut [7; 22])?;
    rows_lines(rt, &mut [7; 19])
}
