// Filling the tables of the steps by the records of a file.
ghost use Rattle.std.specs.Prelude.{◌≡◌, Ok};
ghost use Rattle.sets.specs.Words.{words_of};
ghost use Rattle.taskfile.specs.declared.format.Part.TheVariants.{Needs, Sets, Clears};
ghost use Rattle.taskfile.specs.Meaning.{first_namings, blocks_in, named_for, step_table, costs_of};
ghost use Rattle.taskfile.specs.Answer.{read_into};
ghost use Rattle.taskfile.specs.Workers.{records_left, RoomFor, SameTables};

use crate::format::{Part, Record};
use crate::iter::Records;
use sets::Facts;

/// The tables that the steps go into: what each needs, sets and clears, and what it costs.
#[derive(Drop)]
pub(crate) struct StepTables<'a> {
    pub needs: &'a mut [u64],
    pub sets: &'a mut [u64],
    pub clears: &'a mut [u64],
    pub costs: &'a mut [u32],
}

/// The facts named for that part, up to the next record that names none.
pub(crate) fn facts_named(records: Records<'_>, part: Part) -> Facts
    ensures { result.words ≡ words_of 4 (named_for part (first_namings (records_left records.entry))) }
{
    let mut facts = Facts::empty();
    for record in records {
        let Record::Names(named_part, fact) = record else {
            break;
        };
        if named_part == part {
            facts = facts.with(usize::from(fact));
        }
    }
    facts
}

/// Writes what each step needs, sets, clears and costs, where there is room for them all.
pub(crate) fn fill_steps(mut records: Records<'_>, tables: &mut StepTables<'_>)
    requires { RoomFor (blocks_in (records_left records)) tables.old.needs.now tables.old.sets.now tables.old.clears.now tables.old.costs.now }
    ensures same { SameTables tables.old tables.new }
    ensures needs { tables.new.needs.now ≡ read_into (Ok tt) (step_table Needs (blocks_in (records_left records.entry))) tables.old.needs.now }
    ensures sets { tables.new.sets.now ≡ read_into (Ok tt) (step_table Sets (blocks_in (records_left records.entry))) tables.old.sets.now }
    ensures clears { tables.new.clears.now ≡ read_into (Ok tt) (step_table Clears (blocks_in (records_left records.entry))) tables.old.clears.now }
    ensures costs { tables.new.costs.now ≡ read_into (Ok tt) (costs_of (blocks_in (records_left records.entry))) tables.old.costs.now }
{
    // Stays counted by hand: the body reads on from the same records, which `enumerate` would hold.
    let mut step = 0;
    while let Some(record) = records.next() {
        if let Record::Step(cost) = record {
            facts_named(records, Part::Needs).put_row(tables.needs, step);
            facts_named(records, Part::Sets).put_row(tables.sets, step);
            facts_named(records, Part::Clears).put_row(tables.clears, step);
            tables.costs[step] = cost;
            step += 1;
        }
    }
}
