// The cases, each a line: what was asked, and what the library answers.
use crate::line::{answer, tell};
use sets::{Bits, Facts, Few, Steps};
use std::io;
use task::{Sizes, Tables};

/// A number put into the empty set of facts, and taken out of the full one.
pub fn fact(rt: &impl Print, number: usize) -> io::Result<()> {
    print!(rt; "fact {number}: words")?;
    tell(rt, Facts::empty().with(number).words.iter())?;
    print!(rt; ", ")?;
    one_member(rt, number, Facts::up_to(Facts::ROOM))
}

/// A number put into the empty set of steps, and taken out of the full one.
pub fn step(rt: &impl Print, number: usize) -> io::Result<()> {
    print!(rt; "step {number}: ")?;
    one_member(rt, number, Steps::up_to(Steps::ROOM))
}

// The set of one number and the set of all others, of those that there is room for.
fn one_member<const WORDS: usize>(
    rt: &impl Print,
    number: usize,
    all: Bits<WORDS>,
) -> io::Result<()>
where
    Bits<WORDS>: Few<WORDS>,
{
    let one = Bits::<WORDS>::empty().with(number);
    // Stays a second name for the copy: a value of a generic type is lent to one call alone.
    let same = one;
    let (size, lowest) = (one.size(), same.lowest().unwrap_or(WORDS * 64));
    let others = all.without(number).size();
    println!(rt; "size {size}, lowest {lowest}, all but it {others}")
}

/// Checks tasks of so many facts and one step where a table of sets holds one fact: the last fact
/// and the number after it, in the needs, sets, clears, start and goal.
pub fn last_fact(rt: &impl Print, facts: usize) -> io::Result<()> {
    for table in 0..5 {
        for fact in facts.saturating_sub(1)..=facts {
            let one = Facts::empty().with(fact);
            let mut held = [Facts::empty(); 5];
            held[table] = one;
            let [needs, sets, clears, start, goal] = held;
            print!(rt; "facts {facts}, table {table}, fact {fact}")?;
            check(
                rt,
                Tables {
                    sizes: Sizes { facts, steps: 1 },
                    needs: &needs.words,
                    sets: &sets.words,
                    clears: &clears.words,
                    costs: &[1],
                    start: &start.words,
                    goal: &goal.words,
                },
            )?;
        }
    }
    Ok(())
}

/// Checks a task of one step that costs so much.
pub fn cost(rt: &impl Print, cost: u32) -> io::Result<()> {
    print!(rt; "cost {cost}")?;
    check(
        rt,
        Tables {
            sizes: Sizes { facts: 1, steps: 1 },
            needs: &[0; 4],
            sets: &[0; 4],
            clears: &[0; 4],
            costs: &[cost],
            start: &[0; 4],
            goal: &[0; 4],
        },
    )
}

/// Checks a task of so many facts and steps, with so many words of needs, sets and clears, so many
/// costs, and so many words of start and goal.
pub fn sizes(
    rt: &impl Print,
    sizes: Sizes,
    words: usize,
    costs: usize,
    ends: usize,
) -> io::Result<()> {
    let rows = [0; 4100];
    let table = first(&rows, words);
    let end = first(&rows, ends);
    let (facts, steps) = (sizes.facts, sizes.steps);
    print!(rt; "facts {facts}, steps {steps}, words {words}, costs {costs}, ends {ends}")?;
    check(
        rt,
        Tables {
            sizes,
            needs: table,
            sets: table,
            clears: table,
            costs: first(&[0; 1025], costs),
            start: end,
            goal: end,
        },
    )
}

/// Checks a task of three facts and one step that has so many words of needs, which hold one fact,
/// and costs so much.
pub fn two_faults(rt: &impl Print, words: usize, fact: usize, cost: u32) -> io::Result<()> {
    print!(rt; "facts 3, words {words}, fact {fact}, cost {cost}")?;
    check(
        rt,
        Tables {
            sizes: Sizes { facts: 3, steps: 1 },
            needs: first(&Facts::empty().with(fact).words, words),
            sets: &[0; 4],
            clears: &[0; 4],
            costs: &[cost],
            start: &[0; 4],
            goal: &[0; 4],
        },
    )
}

// What checking answers, to the line's end.
fn check(rt: &impl Print, tables: Tables<'_>) -> io::Result<()> {
    answer(rt, &task::check(tables))?;
    println!(rt)
}

// The first values of a table, so many; all of them where it has fewer.
fn first<T>(table: &[T], count: usize) -> &[T] {
    &table[..count.min(table.len())]
}

/// The row of a step of a task of so many facts and steps, with so many words of needs and of sets:
/// the words of needs are 100, 101 and so on, those of sets 200, 201 and so on.
pub fn row(
    rt: &impl Print,
    sizes: Sizes,
    needs: usize,
    sets: usize,
    step: usize,
    // Stays a number: 2 asks for no row, and is refused.
    which: u8,
) -> io::Result<()> {
    let (facts, steps) = (sizes.facts, sizes.steps);
    print!(rt;
        "row: facts {facts}, steps {steps}, words {needs} {sets}, step {step}, which {which}"
    )?;
    let hundreds = [100, 101, 102, 103, 104, 105, 106, 107];
    let two_hundreds = [200, 201, 202, 203, 204, 205, 206, 207];
    let needs = first(&hundreds, needs);
    let sets = first(&two_hundreds, sets);
    answer(rt, &task::check_row(sizes, needs, sets, step, which))?;
    print!(rt; ", words")?;
    tell(rt, task::step_row(sizes, needs, sets, step, which).iter())?;
    println!(rt)
}
