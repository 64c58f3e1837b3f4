// Distances in document 01's tasks, a line a case.
use crate::line::{answer, tell};
use crate::tasks::{FIRST, SECOND};
use std::io;
use task::{Sizes, Tables};

// Distances from a start that is the goal too, into a table that is lent; the steps clear all that
// they set, which makes no difference.
fn distances_line(
    rt: &impl Print,
    name: &str,
    tables: Tables<'_>,
    table: &mut [u32],
) -> io::Result<()> {
    let tables = Tables {
        clears: tables.sets,
        goal: tables.start,
        ..tables
    };
    print!(rt; "distances of {name}")?;
    answer(rt, &distance::distances(tables, table))?;
    print!(rt; ", table")?;
    tell(rt, table.iter())?;
    println!(rt)
}

/// The distances of both tasks, into tables that held 7 everywhere, and that are longer or too
/// short.
pub fn distances(rt: &impl Print) -> io::Result<()> {
    let from_2 = Tables {
        start: &[4, 0, 0, 0],
        ..FIRST
    };
    let four_facts = Tables {
        sizes: Sizes { facts: 4, steps: 5 },
        ..FIRST
    };
    let from_nothing = Tables {
        start: &[0; 4],
        ..SECOND
    };
    distances_line(rt, "the first task", FIRST, &mut [7; 5])?;
    distances_line(rt, "the first task from 2", from_2, &mut [7; 7])?;
    distances_line(rt, "the first task, a table of 4", FIRST, &mut [7; 4])?;
    distances_line(rt, "the first task, 4 facts", four_facts, &mut [7; 3])?;
    distances_line(rt, "the task of 001", SECOND, &mut [7; 6])?;
    distances_line(
        rt,
        "the task of 001 from nothing",
        from_nothing,
        &mut [7; 5],
    )
}
