// Document 01, "Expected arrival in ticks", and document 02, E1: worth, leaving row and chosen rows, by one scan backward.
#![tactic(auto)]

ghost use Rattle.std.specs.Prelude.{◌≡◌, ℕ, ◌-◌, ◌≤◌, ◌<◌, length};
ghost use Rattle.std.proofs.Math.Seq.{slice};
ghost use Rattle.timetable.specs.Limits.{most_stops};
ghost use Rattle.plan_cells.specs.Cells.{trip_cells, pair_cells, used};
ghost use Rattle.plan_stacks.specs.Stacks.{stack_size};
ghost use Rattle.plan_cells.specs.Outside.{SameOutside};
ghost use Rattle.plan_rows.specs.Sailings.{rows_of};
ghost use Rattle.plan_scan.specs.Reach.{scan_of, HeldFrom};
ghost use Rattle.plan_scan.specs.Regions.{Counted};
ghost use Rattle.plan_scan.specs.Scanned.{ScanHeld};
ghost use Rattle.plan_scan.specs.Stores.{Chose, Pushable, Weighable, Weighs};

mod reach;

use numbers::{cell, number};
use plan_cells::{NONE, PAIR_CELLS, SIZE_CELLS, TRIP_CELLS, fill};
use plan_landing::getting_off;
use plan_stacks::{ChosenRow, part_stacks, reserve, stack_of};
pub use reach::Reach;
use timetable::{MOST_STOPS, MOST_TRIPS, Row};

impl<'a> Reach<'a> {
    // The rows in reach, from the last to the first.
    pub fn scan_back(&self, work: &mut [u32])
        requires { used self.now.sailings.places.rows ≤ length work.old }
        ensures { ScanHeld work.new self.now.sailings.places.rows self.now.first self.now.end (scan_of self.now)
            × SameOutside trip_cells (used self.now.sailings.places.rows) work.old work.new }
    {
        let rows = self.sailings.places.rows;
        let none = PAIR_CELLS + 2 * rows;
        let mut limits = [NONE; MOST_STOPS];
        fill(work, TRIP_CELLS, MOST_TRIPS, cell(rows));
        fill(work, SIZE_CELLS, MOST_STOPS, 0);
        self.count_boardings(work);
        part_stacks(rows + 1, work);
        work[none] = NONE;
        self.weigh_rows(work, &mut limits);
    }

    // How many rows board at each stop.
    fn count_boardings(&self, work: &mut [u32])
        requires { (pair_cells ≤ length work.old) × ((stop : ℕ) → stop < most_stops → stack_size work.old stop ≡ 0) }
        ensures { Counted (slice self.now.first self.now.end (rows_of self.now.sailings)) work.old work.new }
    {
        for i in self.first..self.end {
            reserve(work, self.sailings.nth_row(i).board);
        }
    }

    // From the last row down to the first: each row's worth, then whether it is chosen.
    fn weigh_rows(&self, work: &mut [u32], limits: &mut [u32])
        requires { (used self.now.sailings.places.rows ≤ length work.old) × HeldFrom self.now self.now.end work.old limits.old }
        ensures { HeldFrom self.now self.now.first work.new limits.new
            × SameOutside trip_cells (used self.now.sailings.places.rows) work.old work.new }
    {
        for i in (self.first..self.end).rev() {
            let row = self.sailings.nth_row(i);
            let off = getting_off(row, self.tables, self.goal, work);
            weigh_row(row, i, off, work);
            if row.board != self.goal.target {
                choose(row, i, self.goal.margin, work, limits);
            }
        }
    }
}

// A row's worth is the least over getting off and staying on; at equal worth the ride stays aboard.
fn weigh_row(row: Row, i: usize, off: u32, work: &mut [u32])
    requires { Weighable row i work.old }
    ensures { Weighs row i off work.old work.new }
{
    let trip = TRIP_CELLS + row.trip;
    let pair = PAIR_CELLS + 2 * i;
    let next = PAIR_CELLS + 2 * number(work[trip]);
    let on = work[next];
    work[trip] = cell(i);
    if off < on {
        work[pair] = off;
        work[pair + 1] = cell(i);
    } else {
        work[pair] = on;
        work[pair + 1] = work[next + 1];
    }
}

// A row whose worth lies below its stop's limit goes on the stack; in the same minute as the top it
// replaces that row. A stop's limit is NONE until a row is chosen there: any worth lies below it, and "no
// worth" does not. From then on it is the worth of the stop's first chosen row, and one, less the margin,
// or 0 where the margin is more: then no row ahead of it gains it.
fn choose(row: Row, i: usize, margin: usize, work: &mut [u32], limits: &mut [u32])
    requires { Pushable row i work.old × (row.board < length limits.old) }
    ensures { Chose row i margin work.old limits.old work.new limits.new }
{
    let stop = row.board;
    let worth = work[PAIR_CELLS + 2 * i];
    if limits[stop] <= worth {
        return;
    }
    limits[stop] = cell((number(worth) + 1).saturating_sub(margin));
    let chosen = ChosenRow {
        row: i,
        departure: row.departure,
        worth,
    };
    let stack = stack_of(work, stop);
    if stack.size != 0 && stack.top(work).departure == row.departure {
        stack.replace_top(work, chosen);
    } else {
        stack.push(work, stop, chosen);
    }
}
