// Conditions as a table of faults and whether they are met, and the lowest that fails.
ghost use Rattle.parts.specs.Condition.{Lowest, ascends, first_fault, row};
ghost use Rattle.std.specs.List.{find};
ghost use Rattle.std.specs.Option.{option_map};
ghost use Rattle.std.specs.Prelude.{◌≡◌, true};

use super::fault::Fault;

// A row of a table: this fault, if the condition fails. It is no Option, since a row that does not fail has its fault too,
// and a table ascends by the faults of all its rows.
#[derive(Clone, Copy)]
pub struct Condition {
    pub fault: Fault,
    pub fails: bool,
}

// A row of a table.
pub fn check(fault: Fault, fails: bool) -> Condition
    ensures { result ≡ row fault fails }
{
    Condition { fault, fails }
}

// The first row that fails.
fn failing(table: &[Condition]) -> Option<&Condition>
    ensures { option_map (λ row. row.now) result ≡ find (λ row. row.fails) table.now }
{
    table.iter().find(|row| row.fails)
}

// The fault of the first row that fails; in a table in the order of the numbers, the lowest.
pub fn lowest(table: &[Condition]) -> Option<Fault>
    ensures first { result ≡ first_fault table.now }
    ensures lowest { ascends table.now ≡ true → Lowest table.now result }
{
    failing(table).map(|row| row.fault)
}
