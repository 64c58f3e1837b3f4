// Document 01's examples P1 to P12 as one table, specs/Table.antt, with one claim over it,
// specs/Claim.antt, which proofs/Examples.antt proves; and demand 1 over all operations,
// proofs/Demand1.antt.
#![tactic(auto)]

ghost use Rattle.std.specs.Prelude.{◌≡◌, length};
ghost use Rattle.examples.specs.Table.{table};

// How many rows the table has, each a task with its answers.
pub fn rows() -> usize
    ensures { result ≡ length table }
{
    7
}
