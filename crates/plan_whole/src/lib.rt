// Document 01, "Expected arrival in ticks", and document 02, E3: planning in a sound file with room for it, all steps together.
#![tactic(auto)]

ghost use Rattle.std.specs.Prelude.{◌≡◌, ◌*◌, ◌≤◌, ◌<◌, length};
ghost use Rattle.file_layout.specs.Decode.{decode};
ghost use Rattle.query.specs.Query.{most_gate, most_quarters};
ghost use Rattle.plans.specs.Journeys.{bound_of, ready_at};
ghost use Rattle.plans.specs.Plan.{planned, earliest as earliest_in};
ghost use Rattle.plan_cells.specs.Cells.{pair_cells, used};
ghost use Rattle.plan_earliest.specs.Arrival.{arrival};
ghost use Rattle.plan_rows.specs.Reading.{table_cells, Cut};
ghost use Rattle.plan_rows.specs.Sailings.{rows_of};
ghost use Rattle.plan_rows.specs.Sections.{places_of};
ghost use Rattle.plan_scan.specs.Reach.{scan_of};
ghost use Rattle.plan_scan.specs.Scanned.{ScanHeld};
ghost use Rattle.plan_whole.specs.Answers.{Answers};
ghost use Rattle.plan_whole.specs.Steps.{CallFits, PlanningInput, Reaches, RowsWithin, RowsInReach, plan_in, KeptBehind};

use file_layout::{Format, Trailer};
use numbers::{cell, number};
use plan_earliest::earliest_arrival;
use plan_extract::write_plan;
use plan_rows::{Sailings, SectionPlaces, ready};
use plan_scan::Reach;
use plan_shares::read_tables;
use plan_stacks::stack_of;
use plans::Goal;
use query::Query;
use timetable::Refusal;

// The cells of the class tables: a block for each of 16 classes.
const TABLE_CELLS: usize = 4096;

// The refusal where there is no safe journey.
pub const NO_JOURNEY: Refusal<u32> = Refusal {
    number: 8,
    place: 0,
};

// A plan's ride count, expected ticks, latest minute and bound, 0 for none.
#[derive(Clone, Copy)]
pub struct Plan {
    pub rides: u32,
    pub expected: u32,
    pub latest: u32,
    pub bound: u32,
}

// The plan or 8, with room for it.
pub fn plan_in_room(
    file: &[u8],
    f: Format,
    trailer: Trailer,
    q: Query,
    work: &mut [u32],
    plan: &mut [u32],
) -> Result<Plan, Refusal<u32>>
    requires { CallFits f file.now trailer q × (used trailer.rows ≤ length work.old) × (3 * trailer.rows ≤ length plan.old) }
    ensures { Answers (planned (decode f file.now) q) result plan.old plan.new
        × KeptBehind (used trailer.rows) work.old work.new }
{
    let mut tables = [0u32; TABLE_CELLS];
    let (sailings, first) = lay_out(file, f, trailer, q, &mut tables);
    let end = earliest_arrival(&sailings, &tables, q, first, work).ok_or(NO_JOURNEY)?;
    let bound = bound_of(q, number(end));
    plan_within(&sailings, &tables, q, bound, first, work, plan)
}

// The sailings, how many of them are missed, and the tables as lent cells.
fn lay_out<'a>(
    file: &'a [u8],
    f: Format,
    trailer: Trailer,
    q: Query,
    tables: &mut [u32],
) -> (Sailings<'a>, usize)
    requires { CallFits f file.now trailer q × (length tables.old ≡ table_cells) }
    ensures { (result.0.file.now ≡ file.now) × (result.0.places ≡ places_of f trailer)
        × PlanningInput result.0.file.now result.0.places tables.new q result.1 }
{
    let places = places_in(f, trailer);
    let sailings = Sailings { file, places };
    read_tables(file, places, tables);
    let first = rows_missed(&sailings, q);
    (sailings, first)
}

// Where a file's sections stand.
fn places_in(f: Format, trailer: Trailer) -> SectionPlaces
    ensures { result ≡ places_of f trailer }
{
    SectionPlaces {
        rows: trailer.rows,
        rowstart: trailer.rowstart,
        width: f.width,
        classes: trailer.classes,
        tablestart: trailer.tablestart,
    }
}

// How many rows depart before one who stands at the source at T is ready.
fn rows_missed(sailings: &Sailings, q: Query) -> usize
    requires { (q.minute < 65536) × (q.gate ≤ most_gate) }
    ensures { Cut (rows_of sailings.now) (ready_at q) result }
{
    sailings.rows_before(ready(q.gate, q.minute))
}

// T + q(E - T)/4 rounded down; 0 stands for no bound.
fn bound_of(q: Query, end: usize) -> usize
    requires { (q.minute ≤ end) × (end < 65536) × (q.code ≤ most_quarters) }
    ensures { (result ≡ bound_of q end) × (result < 4294967296) }
{
    if q.code == 0 {
        return 0;
    }
    q.minute + q.code * (end - q.minute) / 4
}

// The plan within a bound that does not lie before T + g, or 8.
fn plan_within(
    sailings: &Sailings,
    tables: &[u32],
    q: Query,
    bound: usize,
    first: usize,
    work: &mut [u32],
    plan: &mut [u32],
) -> Result<Plan, Refusal<u32>>
    requires { PlanningInput sailings.now.file.now sailings.now.places tables.now q first × Reaches (ready_at q) bound × (bound < 4294967296)
        × (used sailings.now.places.rows ≤ length work.old) × (3 * sailings.now.places.rows ≤ length plan.old) }
    ensures { Answers (plan_in sailings.now.file.now sailings.now.places q bound) result plan.old plan.new
        × KeptBehind (used sailings.now.places.rows) work.old work.new }
{
    let goal = Goal {
        target: q.target,
        bound,
        margin: q.margin,
        gate: q.gate,
    };
    let end = rows_within(sailings, bound);
    let reach = Reach {
        sailings: *sailings,
        tables,
        goal,
        first,
        end,
    };
    reach.scan_back(work);
    plan_scanned(&reach, q, work, plan)
}

// The rows that a plan within the bound can board: a row that departs at or after a real bound lands
// behind it.
fn rows_within(sailings: &Sailings, bound: usize) -> usize
    ensures { RowsWithin (rows_of sailings.now) bound result }
{
    if bound == 0 {
        return sailings.places.rows;
    }
    sailings.rows_before(bound)
}

// The plan that the scan's cells lead to, or 8.
fn plan_scanned(
    reach: &Reach,
    q: Query,
    work: &mut [u32],
    plan: &mut [u32],
) -> Result<Plan, Refusal<u32>>
    requires { PlanningInput reach.now.sailings.file.now reach.now.sailings.places reach.now.tables.now q reach.now.first
        × RowsInReach reach.now.sailings.file.now reach.now.sailings.places q reach.now.goal reach.now.first reach.now.end
        × (used reach.now.sailings.places.rows ≤ length work.old) × (3 * reach.now.sailings.places.rows ≤ length plan.old)
        × ScanHeld work.old reach.now.sailings.places.rows reach.now.first reach.now.end (scan_of reach.now) }
    ensures { Answers (plan_in reach.now.sailings.file.now reach.now.sailings.places q reach.now.goal.bound) result plan.old plan.new
        × KeptBehind (used reach.now.sailings.places.rows) work.old work.new }
{
    let stack = stack_of(work, q.source);
    if stack.size == 0 {
        return Err(NO_JOURNEY);
    }
    let ahead = stack.top(work);
    let written = write_plan(reach, ahead.row, work, plan);
    Ok(Plan {
        rides: cell(written.rides),
        expected: ahead.worth,
        latest: written.latest,
        bound: cell(reach.goal.bound),
    })
}

// E, with room to find it.
pub fn earliest_in_room(
    file: &[u8],
    f: Format,
    trailer: Trailer,
    q: Query,
    work: &mut [u32],
) -> Option<u32>
    requires { CallFits f file.now trailer q × (used trailer.rows ≤ length work.old) }
    ensures { (result ≡ arrival (earliest_in (decode f file.now) q)) × KeptBehind pair_cells work.old work.new }
{
    let mut tables = [0u32; TABLE_CELLS];
    let (sailings, first) = lay_out(file, f, trailer, q, &mut tables);
    earliest_arrival(&sailings, &tables, q, first, work)
}
