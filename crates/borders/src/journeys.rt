// Reach and replay of small tasks and of the longest: what document 01 says of each, a line a case.
use crate::line::{answer, tell};
use crate::tasks::FIRST;
use reach::Reached;
use replay::Replayed;
use sets::Facts;
use std::io;
use task::{Sizes, Tables};

// Replay of a walk, to the line's end.
fn replay_line(rt: &impl Print, tables: Tables<'_>, walk: &[u16]) -> io::Result<()> {
    print!(rt; ", walk of {}: ", walk.len())?;
    match replay::replay(tables, walk) {
        Ok(Replayed::Done(cost)) => println!(rt; "done {cost}"),
        Ok(Replayed::Stuck(entry)) => println!(rt; "stuck {entry}"),
        Ok(Replayed::Short) => println!(rt; "short"),
        Err(refusal) => println!(rt; "{refusal}"),
    }
}

// Reach of a task without a goal whose steps clear all that they need, which makes no difference.
fn reach_line(rt: &impl Print, tables: Tables<'_>) -> io::Result<()> {
    let reached = reach::reach(Tables {
        clears: tables.needs,
        goal: &[0; 4],
        ..tables
    });
    answer(rt, &reached)?;
    let Reached { set, passes } = reached.unwrap_or(Reached {
        set: Facts::empty(),
        passes: 0,
    });
    print!(rt; ", passes {passes}, facts")?;
    tell(rt, set.members())?;
    println!(rt)
}

/// The first task's reach, from no fact and from fact 2.
pub fn first_reach(rt: &impl Print) -> io::Result<()> {
    print!(rt; "first task")?;
    reach_line(rt, FIRST)?;
    print!(rt; "first task from 2")?;
    reach_line(
        rt,
        Tables {
            start: &[4, 0, 0, 0],
            ..FIRST
        },
    )?;
    print!(rt; "first task without its last fact")?;
    reach_line(
        rt,
        Tables {
            sizes: Sizes { facts: 4, steps: 5 },
            ..FIRST
        },
    )
}

/// Document 01's walks, and some that are refused or stuck.
pub fn first_walks(rt: &impl Print) -> io::Result<()> {
    let walks: [&[u16]; 8] = [
        &[0, 2, 3, 4],
        &[0, 4],
        &[],
        &[0, 0, 0, 2, 3, 3, 4, 0],
        &[0, 2, 3],
        &[4],
        &[4, 5, 6],
        &[0, 2, 3, 4, 5],
    ];
    for walk in walks {
        print!(rt; "first task")?;
        replay_line(rt, FIRST, walk)?;
    }
    Ok(())
}

// A walk through a task of one step: the words of what it needs, sets and clears, of the start and
// of the goal.
fn one_step(rt: &impl Print, words: [u64; 5], walk: &[u16]) -> io::Result<()> {
    let [needs, sets, clears, start, goal] = words.map(|word| [word, 0, 0, 0]);
    print!(rt; "one step")?;
    replay_line(
        rt,
        Tables {
            sizes: Sizes {
                facts: 64,
                steps: 1,
            },
            needs: &needs,
            sets: &sets,
            clears: &clears,
            costs: &[65535],
            start: &start,
            goal: &goal,
        },
        walk,
    )
}

/// A step that sets and clears the same fact; one that clears what it needs; a goal within the
/// start; and the longest walk and one entry more.
pub fn one_step_walks(rt: &impl Print) -> io::Result<()> {
    one_step(rt, [0, 8, 8, 0, 8], &[0])?;
    one_step(rt, [1, 2, 1, 1, 2], &[0])?;
    one_step(rt, [1, 2, 1, 1, 2], &[0, 0])?;
    one_step(rt, [1, 2, 1, 1, 3], &[0])?;
    one_step(rt, [0, 1, 0, 6, 2], &[])?;
    one_step(rt, [0, 1, 0, 0, 1], &[0; 65535])?;
    one_step(rt, [0, 1, 0, 0, 1], &[9; 65536])
}

/// The longest chain: all 256 facts, one after the other. Step s needs fact s and sets the fact
/// after it.
pub fn chain(rt: &impl Print) -> io::Result<()> {
    let mut needs = [0; 1020];
    let mut sets = [0; 1020];
    let mut walk = [0; 255];
    for (step, (entry, number)) in walk.iter_mut().zip(0u16..).enumerate() {
        *entry = number;
        Facts::empty().with(step).put_row(&mut needs, step);
        Facts::empty().with(step + 1).put_row(&mut sets, step);
    }
    let tables = Tables {
        sizes: Sizes {
            facts: 256,
            steps: 255,
        },
        needs: &needs,
        sets: &sets,
        clears: &needs,
        costs: &[257; 255],
        start: &[1, 0, 0, 0],
        goal: &[0, 0, 0, 1 << 63],
    };
    print!(rt; "chain")?;
    reach_line(rt, tables)?;
    print!(rt; "chain")?;
    replay_line(rt, tables, &walk)
}
