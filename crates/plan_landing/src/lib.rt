// Document 01, "Expected arrival in ticks", and document 02, E3: what getting off a row is worth, by its stop's stack of chosen rows.
#![tactic(auto)]

ghost use Rattle.std.specs.Prelude.{◌≡◌, List, ℕ, ◌+◌, ◌*◌, ◌/◌, ◌≤◌, ◌<◌};
ghost use Rattle.timetable.specs.Classes.{share_total};
ghost use Rattle.query.specs.Query.{most_gate};
ghost use Rattle.plans.specs.declared.Goal.{Goal};
ghost use Rattle.plans.specs.Journeys.{within};
ghost use Rattle.timetable.specs.Ticks.{quotient_up};
ghost use Rattle.plans.specs.Worth.{Valued, weigh};
ghost use Rattle.plans.specs.Chosen.{off_in_ticks};
ghost use Rattle.plan_cells.specs.Cells.{cell_of};
ghost use Rattle.plan_landing.specs.Landing.{Landable, SomeLandable, ride_off};
ghost use Rattle.plan_landing.specs.Boarding.{Boarding, SomeBoarding};

use numbers::{cell, long, number, short};
use plan_cells::NONE;
use plan_rows::{BLOCK, EXPECTED, MAX_DELAY, SHARES, can_board, ready};
use plan_stacks::{departure_of, stack_of};
use plans::Goal;
use timetable::Row;

// A share counts 4,096ths: `timetable::SHARE_TOTAL` in the width of the sums, as no constant is converted by `From`.
const SHARE_TOTAL: u64 = 4096;

// What getting off is worth; NONE where it is not open, for the scan keeps it in a cell, above all worths: with an Option it would be told apart first.
pub fn getting_off(row: Row, tables: &[u32], goal: Goal, work: &[u32]) -> u32
    requires { SomeLandable row tables.now work.now × (goal.gate ≤ most_gate) }
    ensures { (shares : List ℕ) (chosen : List Valued) → Landable row tables.now work.now shares chosen
        → result ≡ cell_of (off_in_ticks goal (ride_off row shares) chosen) }
{
    let class = BLOCK * row.class;
    let landing = row.arrival + number(tables[class + MAX_DELAY]);
    if row.land == goal.target {
        if !bounded(goal.bound, landing) {
            return NONE;
        }
        return cell(256 * row.arrival) + tables[class + EXPECTED];
    }
    let stack = stack_of(work, row.land);
    let start = stack.start;
    if stack.size == 0 {
        return NONE;
    }
    let last = ready(goal.gate, landing);
    if !can_board(departure_of(work[start]), last) {
        return NONE;
    }
    let soon = ready(goal.gate, row.arrival);
    let at = stack.first_open(work, soon);
    changing(work, at, soon, last, tables, class + SHARES)
}

// A minute is within the bound.
fn bounded(bound: usize, minute: usize) -> bool
    ensures { result ≡ within bound minute }
{
    bound == 0 || minute <= bound
}

// The sum over delays of share x worth of the ride caught, in runs of delays that catch the same ride,
// divided by 4,096 and rounded up. The first entry caught is at cell `at`; `soon` is when one who lands
// at a is ready, `last` at a + M, `shares` the cell of the class's first cumulative share. `while`: down the
// stack to the first entry that departs late enough, no index is counted.
fn changing(work: &[u32], at: usize, soon: usize, last: usize, tables: &[u32], shares: usize) -> u32
    requires { SomeBoarding work.now tables.now at soon last shares }
    ensures { (start first : ℕ) (held : List ℕ) (caught : ℕ → ℕ) → at ≡ start + 2 * first
        → Boarding work.now tables.now start first soon last shares held caught
        → result ≡ quotient_up share_total (weigh held soon caught) }
{
    let mut entry = at;
    let mut departure = departure_of(work[entry]);
    let mut done = 0;
    let mut sum = 0;
    while !can_board(departure, last) {
        let share = long(tables[shares + (departure - soon)]);
        sum += (share - done) * long(work[entry + 1]);
        done = share;
        entry -= 2;
        departure = departure_of(work[entry]);
    }
    sum += (SHARE_TOTAL - done) * long(work[entry + 1]);
    // One addition and a shift: div_ceil would look at the remainder as well, in the scan's inner step.
    short((sum + (SHARE_TOTAL - 1)) / SHARE_TOTAL)
}
