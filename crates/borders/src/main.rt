// Prints what the library answers at the borders that document 01 names, a line for each case. The
// expected lines, in the file stdout, were worked out from document 01.
#![tactic(auto)]

mod bounds;
mod cases;
mod journeys;
mod landmarks;
mod line;
mod measures;
mod tasks;

use std::io;
use task::Sizes;

// The first number, both sides of each word's border, the last, and one past the last.
fn facts(rt: &impl Print) -> io::Result<()> {
    for number in [0, 63, 64, 127, 128, 191, 192, 255, 256] {
        cases::fact(rt, number)?;
    }
    Ok(())
}

fn steps(rt: &impl Print) -> io::Result<()> {
    for number in [0, 63, 64, 1022, 1023, 1024] {
        cases::step(rt, number)?;
    }
    Ok(())
}

// The last fact and the number after it, in each table of sets.
fn last_facts(rt: &impl Print) -> io::Result<()> {
    for facts in [1, 63, 64, 65, 255, 256] {
        cases::last_fact(rt, facts)?;
    }
    Ok(())
}

fn costs(rt: &impl Print) -> io::Result<()> {
    for cost in [0, 65534, 65535, 65536, 4294967295] {
        cases::cost(rt, cost)?;
    }
    Ok(())
}

// Numbers of facts and steps, and lengths of tables, costs, and start and goal; at the end the
// lowest refusal where two apply.
fn sizes(rt: &impl Print) -> io::Result<()> {
    for (facts, steps, words, costs, ends) in [
        (0, 0, 0, 0, 4),
        (1, 0, 0, 0, 4),
        (256, 0, 0, 0, 4),
        (257, 0, 0, 0, 4),
        (5, 0, 4, 0, 4),
        (5, 0, 0, 1, 4),
        (5, 1, 4, 1, 4),
        (5, 1, 3, 1, 4),
        (5, 1, 5, 1, 4),
        (5, 1, 4, 0, 4),
        (5, 1, 4, 2, 4),
        (5, 1, 4, 1, 3),
        (5, 1, 4, 1, 5),
        (5, 1024, 4096, 1024, 4),
        (5, 1024, 4095, 1024, 4),
        (5, 1024, 4097, 1024, 4),
        (5, 1024, 4096, 1025, 4),
        (5, 1025, 4100, 1025, 4),
        (0, 1025, 4100, 1025, 4),
        (257, 1, 3, 1, 4),
        (5, 1025, 4, 1, 4),
    ] {
        cases::sizes(rt, Sizes { facts, steps }, words, costs, ends)?;
    }
    Ok(())
}

// The lowest refusal where two of a table's length, a fact and a cost apply.
fn two_faults(rt: &impl Print) -> io::Result<()> {
    for (words, fact, cost) in [(3, 3, 0), (4, 3, 65536), (3, 2, 65536)] {
        cases::two_faults(rt, words, fact, cost)?;
    }
    Ok(())
}

// The row of a step.
fn rows(rt: &impl Print) -> io::Result<()> {
    for (facts, steps, needs, sets, step, which) in [
        (5, 2, 8, 8, 0, 0),
        (5, 2, 8, 8, 0, 1),
        (5, 2, 8, 8, 1, 0),
        (5, 2, 8, 8, 1, 1),
        (5, 2, 8, 8, 0, 2),
        (5, 2, 8, 8, 2, 0),
        (5, 2, 8, 8, 2, 2),
        (5, 2, 7, 8, 0, 0),
        (5, 2, 8, 7, 0, 0),
        (5, 2, 7, 8, 2, 2),
        (5, 0, 0, 0, 0, 0),
        (0, 2, 8, 8, 0, 0),
        (257, 1025, 8, 8, 0, 0),
        (5, 1025, 8, 8, 0, 0),
    ] {
        cases::row(rt, Sizes { facts, steps }, needs, sets, step, which)?;
    }
    Ok(())
}

fn main(rt: HostRuntime) -> io::Result<()> {
    facts(&rt)?;
    steps(&rt)?;
    last_facts(&rt)?;
    costs(&rt)?;
    sizes(&rt)?;
    two_faults(&rt)?;
    rows(&rt)?;
    journeys::first_reach(&rt)?;
    journeys::first_walks(&rt)?;
    journeys::one_step_walks(&rt)?;
    journeys::chain(&rt)?;
    measures::distances(&rt)?;
    landmarks::must_pass(&rt)?;
    landmarks::rows(&rt)?;
    bounds::examples(&rt)?;
    bounds::refusals(&rt)
}
