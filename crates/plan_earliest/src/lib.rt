// Document 01, "Rides, safe journeys, plans", and document 02, E3: the earliest safe arrival, by one scan forward.
#![tactic(auto)]

ghost use Rattle.std.specs.Prelude.{◌≡◌, ◌≢◌, ℕ, ◌≤◌, ◌<◌, length};
ghost use Rattle.timetable.specs.Limits.{most_stops, most_trips};
ghost use Rattle.query.specs.Query.{most_gate};
ghost use Rattle.plans.specs.Journeys.{ready_at};
ghost use Rattle.plans.specs.Plan.{earliest};
ghost use Rattle.plan_cells.specs.Cells.{trip_cells, pair_cells};
ghost use Rattle.plan_cells.specs.Outside.{SameOutside};
ghost use Rattle.plan_rows.specs.Reading.{table_cells, Cut, TablesHeld};
ghost use Rattle.plan_rows.specs.Sailings.{rows_of, tables_of, timetable_of};
ghost use Rattle.plan_earliest.specs.Arrival.{arrival};
ghost use Rattle.plan_earliest.specs.Cells.{reached_at, landing_of, RowInCells, Boarded, Landed, RowSailed};
ghost use Rattle.plan_earliest.specs.Swept.{Swept, EarliestReached};

use numbers::{cell, number};
use plan_cells::{NONE, STOP_CELLS, TRIP_CELLS, fill};
use plan_rows::{BLOCK, MAX_DELAY, Sailings, can_board, ready};
use query::Query;
use timetable::{MOST_STOPS, MOST_TRIPS, Row};

// The earliest safe arrival that the query asks for, over the rows from `first` on.
pub fn earliest_arrival(
    sailings: &Sailings,
    tables: &[u32],
    q: Query,
    first: usize,
    work: &mut [u32],
) -> Option<u32>
    requires { TablesHeld tables.now (tables_of sailings.now) × (q.source < most_stops) × (q.target < most_stops)
        × (q.source ≢ q.target) × (q.minute < 65536) × Cut (rows_of sailings.now) (ready_at q) first
        × (pair_cells ≤ length work.old) × (q.gate ≤ most_gate) }
    ensures { (result ≡ arrival (earliest (timetable_of sailings.now) q))
        × SameOutside trip_cells pair_cells work.old work.new }
{
    fill(work, TRIP_CELLS, MOST_TRIPS, 0);
    fill(work, STOP_CELLS, MOST_STOPS, NONE);
    work[STOP_CELLS + q.source] = cell(q.minute);
    sail_until(sailings, tables, q.target, q.gate, first, work);
    let end = work[STOP_CELLS + q.target];
    if end == NONE { None } else { Some(end) }
}

// Row by row, until one departs when the target is reached already.
fn sail_until(
    sailings: &Sailings,
    tables: &[u32],
    target: usize,
    gate: usize,
    first: usize,
    work: &mut [u32],
)
    requires { TablesHeld tables.now (tables_of sailings.now) × (target < most_stops) × (first ≤ sailings.now.places.rows)
        × (pair_cells ≤ length work.old) × (gate ≤ most_gate) }
    ensures { SameOutside trip_cells pair_cells work.old work.new × ((source minute : ℕ)
        → Swept (timetable_of sailings.now) gate source minute first work.old
        → EarliestReached (timetable_of sailings.now) gate source minute target (reached_at work.new target)) }
{
    for i in first..sailings.places.rows {
        let row = sailings.nth_row(i);
        if can_board(row.departure, number(work[STOP_CELLS + target])) {
            return;
        }
        sail(row, gate, tables, work);
    }
}

// One row: who is aboard or can board lands by a + M.
fn sail(row: Row, gate: usize, tables: &[u32], work: &mut [u32])
    requires { RowInCells tables.now row × (length tables.now ≡ table_cells) × (pair_cells ≤ length work.old) × (gate ≤ most_gate) }
    ensures { RowSailed gate row (landing_of tables.now row) work.old work.new }
{
    if board(row, gate, work) {
        land(row, tables, work);
    }
}

// Aboard since an earlier row of the trip, or from this one on?
fn board(row: Row, gate: usize, work: &mut [u32]) -> bool
    requires { (row.board < most_stops) × (row.trip < most_trips) × (pair_cells ≤ length work.old) × (gate ≤ most_gate) }
    ensures { Boarded gate row work.old work.new result }
{
    let trip = TRIP_CELLS + row.trip;
    let stop = STOP_CELLS + row.board;
    if work[trip] != 0 {
        return true;
    }
    if can_board(row.departure, ready(gate, number(work[stop]))) {
        work[trip] = 1;
        return true;
    }
    false
}

// Lands by a + M: the stop's cell keeps the earlier minute.
fn land(row: Row, tables: &[u32], work: &mut [u32])
    requires { RowInCells tables.now row × (length tables.now ≡ table_cells) × (pair_cells ≤ length work.old) }
    ensures { Landed row.land (landing_of tables.now row) work.old work.new }
{
    let stop = STOP_CELLS + row.land;
    let class = BLOCK * row.class;
    let landing = cell(row.arrival) + tables[class + MAX_DELAY];
    if landing < work[stop] {
        work[stop] = landing;
    }
}
