// Cuts in document 01's examples P1 to P9, a few lines a case.
use crate::line::{answer, tell};
use crate::tasks::{EITHER_STEP, FIRST, GOAL_IN_START, NO_STEPS, SECOND};
use cuts::Cutting;
use sets::Steps;
use std::io;
use task::Tables;

// The rounds of a task, into tables of so many words and so many numbers, which held 7 each; its
// steps clear all that they set, which makes no difference. Then the steps of each cut, and the
// word after the last cut.
fn cut_lines(
    rt: &impl Print,
    name: &str,
    tables: Tables<'_>,
    words: usize,
    numbers: usize,
) -> io::Result<()> {
    let rows = &mut [7; 80][..words.min(80)];
    let prices = &mut [7; 5][..numbers.min(5)];
    let left = &mut [7; 5][..numbers.min(5)];
    let tables = Tables {
        clears: tables.sets,
        ..tables
    };
    let cutting = cuts::cuts(tables, rows, prices, left);
    print!(rt; "{name}")?;
    answer(rt, &cutting)?;
    let Cutting { rounds, floor } = cutting.unwrap_or(Cutting {
        rounds: 0,
        floor: 0,
    });
    print!(rt; ", rounds {rounds}, floor {floor}, costs")?;
    tell(rt, prices.iter())?;
    print!(rt; ", left")?;
    tell(rt, left.iter())?;
    println!(rt)?;
    for round in 0..rounds {
        print!(rt; "cut")?;
        tell(rt, Steps::row(rows, round).members())?;
        println!(rt)?;
    }
    let next = Steps::row(rows, rounds).words;
    println!(rt; "word after the cuts {}", next[0])
}

/// P1 to P9.
pub fn examples(rt: &impl Print) -> io::Result<()> {
    cut_lines(rt, "P1 to P4", FIRST, 80, 5)?;
    cut_lines(rt, "P5, P6", SECOND, 64, 5)?;
    cut_lines(rt, "P7", GOAL_IN_START, 80, 5)?;
    cut_lines(rt, "P8", NO_STEPS, 0, 0)?;
    cut_lines(rt, "P9", EITHER_STEP, 33, 3)
}

/// Tables that are too short, and no way.
pub fn refusals(rt: &impl Print) -> io::Result<()> {
    let no_way = Tables {
        start: &[0; 4],
        ..SECOND
    };
    cut_lines(rt, "one word too few", FIRST, 79, 5)?;
    cut_lines(rt, "one cost too few", FIRST, 80, 4)?;
    cut_lines(rt, "no way and one word too few", no_way, 63, 5)?;
    cut_lines(rt, "no way", no_way, 64, 5)
}
