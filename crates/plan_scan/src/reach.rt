ghost use Rattle.std.specs.Prelude.{◌≤◌};
ghost use Rattle.query.specs.Query.{most_gate};
ghost use Rattle.plan_rows.specs.Reading.{TablesHeld};
ghost use Rattle.plan_rows.specs.Sailings.{tables_of};

use plan_rows::Sailings;
use plans::Goal;

// The rows from `first` to before `end` that a plan for this goal can board, and the delay tables as lent cells.
#[derive(Clone, Copy)]
pub struct Reach<'a> {
    pub sailings: Sailings<'a>,
    pub tables: &'a [u32],
    pub goal: Goal,
    pub first: usize,
    pub end: usize,
    ghost held: { TablesHeld tables.now (tables_of sailings) },
    ghost ordered: { first ≤ end },
    ghost inside: { end ≤ sailings.places.rows },
    ghost gate: { goal.gate ≤ most_gate },
}
