// Document 01, "Expected arrival in ticks", and document 02, E3: the plan, by one pass forward over the wanted rows.
#![tactic(auto)]

ghost use Rattle.std.specs.Prelude.{◌≡◌, ◌+◌, ◌*◌, ◌≤◌, ◌<◌, length, get_or};
ghost use Rattle.plans.specs.Plan.{latest_of};
ghost use Rattle.plan_cells.specs.Cells.{trip_cells, used, pair_cells};
ghost use Rattle.plan_cells.specs.Outside.{SameOutside};
ghost use Rattle.plan_extract.specs.Extracted.{PlanFrom, rides_ahead};
ghost use Rattle.plan_slice.specs.Slice.{written, with_ride};
ghost use Rattle.numbers.specs.Over.{over};
ghost use Rattle.plan_extract.specs.Marks.{Catching, AllPassed, MarkedAlone};

use numbers::{cell, number};
use plan_cells::{PAIR_CELLS, TRIP_CELLS, fill};
use plan_rows::{BLOCK, MAX_DELAY, can_board, ready};
use plan_scan::Reach;
use plan_slice::{Ride, write_ride};
use plan_stacks::{departure_of, row_of, stack_of};

// How many rides a plan has, and the largest a + M of them.
#[derive(Clone, Copy)]
pub struct Written {
    pub rides: usize,
    pub latest: u32,
}

// The rides of the plan whose first row is `boarding`, by boarding row rising, into the plan slice.
pub fn write_plan(reach: &Reach, boarding: usize, work: &mut [u32], plan: &mut [u32]) -> Written
    requires { (used reach.now.sailings.places.rows ≤ length work.old) × (3 * reach.now.sailings.places.rows ≤ length plan.old)
        × PlanFrom reach.now boarding work.old }
    ensures { ((p : PlanFrom reach.now boarding work.old)
        → (plan.new ≡ over (written (rides_ahead p)) plan.old)
        × (result.rides ≡ length (rides_ahead p)) × (result.latest ≡ latest_of (rides_ahead p)))
        × SameOutside trip_cells (used reach.now.sailings.places.rows) work.old work.new }
{
    fill(work, TRIP_CELLS, reach.sailings.places.rows, 0);
    work[TRIP_CELLS + boarding] = 1;
    write_wanted(reach, boarding, work, plan)
}

// The rides of the marked rows; each marks the rows that it may be changed to, all of them further on.
fn write_wanted(reach: &Reach, boarding: usize, work: &mut [u32], plan: &mut [u32]) -> Written
    requires { (used reach.now.sailings.places.rows ≤ length work.old) × (3 * reach.now.sailings.places.rows ≤ length plan.old)
        × PlanFrom reach.now boarding work.old × MarkedAlone work.old reach.now.sailings.places.rows boarding }
    ensures { ((p : PlanFrom reach.now boarding work.old)
        → (plan.new ≡ over (written (rides_ahead p)) plan.old)
        × (result.rides ≡ length (rides_ahead p)) × (result.latest ≡ latest_of (rides_ahead p)))
        × SameOutside trip_cells (used reach.now.sailings.places.rows) work.old work.new }
{
    let goal = reach.goal;
    let mut rides = 0;
    let mut latest = 0;
    for board in boarding..reach.end {
        if work[TRIP_CELLS + board] == 1 {
            let leave = write_row(board, rides, work, plan);
            let row = reach.sailings.nth_row(leave);
            let landing = row.arrival + number(reach.tables[BLOCK * row.class + MAX_DELAY]);
            rides += 1;
            latest = latest.max(landing);
            if row.land != goal.target {
                let soon = ready(goal.gate, row.arrival);
                want(row.land, soon, ready(goal.gate, landing), work);
            }
        }
    }
    Written {
        rides,
        latest: cell(latest),
    }
}

// The ride of row `board` by the row's pair of cells, as ride number `ride`; its leaving row.
fn write_row(board: usize, ride: usize, work: &[u32], plan: &mut [u32]) -> usize
    requires { (board < 4294967296) × (pair_cells + 2 * board + 1 < length work.now) × (3 * ride + 2 < length plan.old) }
    ensures { (result ≡ get_or work.now (pair_cells + 2 * board + 1) 0)
        × (plan.new ≡ with_ride plan.old ride board (get_or work.now (pair_cells + 2 * board + 1) 0) (get_or work.now (pair_cells + 2 * board) 0)) }
{
    let pair = PAIR_CELLS + 2 * board;
    let leave = work[pair + 1];
    write_ride(
        plan,
        ride,
        Ride {
            board: cell(board),
            leave,
            worth: work[pair],
        },
    );
    number(leave)
}

// After a ride to `land` from where one is ready from `soon` to `last`: the rows that can be caught are wanted,
// up to and including the first that departs at or after `last`. `while`: no index is counted.
fn want(land: usize, soon: usize, last: usize, work: &mut [u32])
    requires { Catching work.old land soon last }
    ensures { AllPassed work.old work.new land soon last }
{
    let stack = stack_of(work, land);
    let mut entry = stack.first_open(work, soon);
    let mut key = work[entry];
    while !can_board(departure_of(key), last) {
        work[TRIP_CELLS + row_of(key)] = 1;
        entry -= 2;
        key = work[entry];
    }
    let safe = row_of(key);
    work[TRIP_CELLS + safe] = 1;
}
