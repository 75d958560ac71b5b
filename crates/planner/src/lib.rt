// Document 01, "What the planner covers": the plan and the earliest safe arrival, or a numbered refusal.
#![tactic(auto)]

ghost use Rattle.std.specs.Prelude.{Ok, ◌≡◌, ◌≤◌, ◌<◌, length};
ghost use Rattle.timetable.specs.Limits.{most_rows, most_stops};
ghost use Rattle.timetable.specs.Verdict.{by_verdict, refused};
ghost use Rattle.file_layout.specs.Check.{checked_as};
ghost use Rattle.file_layout.specs.Format.{Readable, version_one};
ghost use Rattle.query.specs.Query.{plain_query, with_gate};
ghost use Rattle.plan_rows.specs.Sections.{Plannable};
ghost use Rattle.planner.specs.Admission.{Admits, SmallRoom, admitted, call_verdict, enough as is_enough, needs, no_room, plan_room, work_room};
ghost use Rattle.planner.specs.Outcome.{cleared, earliest_outcome, plan_outcome};

use file_check::check_as;
use file_layout::{Format, Trailer, VERSION_ONE};
use numbers::cell;
use plan_whole::{Plan, earliest_in_room, plan_in_room};
use query::{LEAST_MARGIN, Query, query_rule};
use timetable::Refusal;

// What is lent, and what a call needs of it: so much a row, a stop, and beside them.
#[derive(Clone, Copy)]
pub struct Room {
    pub lent: usize,
    pub perrow: usize,
    pub perstop: usize,
    pub fixed: usize,
}

// Where a call needs one room alone.
pub const NO_ROOM: Room = Room {
    lent: 0,
    perrow: 0,
    perstop: 0,
    fixed: 0,
};

// The trailer of a sound file that a call on a file and a query, which is lent two rooms, goes on with; or the first of the refusals 1 to 7.
pub fn admit(
    file: &[u8],
    f: Format,
    q: Query,
    work: Room,
    other: Room,
) -> Result<Trailer, Refusal<u32>>
    requires { Readable f × SmallRoom work × SmallRoom other }
    ensures { result ≡ admitted f file.now q work other }
{
    let trailer = check_as(file, f).map_err(in_cells)?;
    admit_checked(f, trailer, q, work, other)?;
    Ok(trailer)
}

// The check's refusal in the numbers of a call.
pub fn in_cells(refusal: Refusal<usize>) -> Refusal<u32>
    requires { (refusal.number < 4294967296) × (refusal.place < 4294967296) }
    ensures { result ≡ record { number = refusal.number; place = refusal.place } }
{
    Refusal {
        number: cell(refusal.number),
        place: cell(refusal.place),
    }
}

// The refusals behind the check's, 6 and 7.
#[tactic(auto, unfolding(crate::specs::Admission::call_verdict))]
pub fn admit_checked(
    f: Format,
    trailer: Trailer,
    q: Query,
    work: Room,
    other: Room,
) -> Result<(), Refusal<u32>>
    requires { (trailer.stops ≤ most_stops) × (trailer.rows ≤ most_rows) × SmallRoom work × SmallRoom other }
    ensures { result ≡ by_verdict refused (Ok tt) (call_verdict f trailer q work other) }
{
    if !query_rule(q, trailer.stops, f.lastminute) {
        return refuse(6);
    }
    if !(enough(work, trailer) && enough(other, trailer)) {
        return refuse(7);
    }
    Ok(())
}

// A refusal that speaks of no place.
fn refuse<T>(number: u32) -> Result<T, Refusal<u32>>
    ensures { result ≡ refused number 0 }
{
    Err(Refusal { number, place: 0 })
}

// As much is lent as is needed.
fn enough(room: Room, trailer: Trailer) -> bool
    requires { (trailer.stops ≤ most_stops) × (trailer.rows ≤ most_rows) × SmallRoom room }
    ensures { result ≡ is_enough room trailer }
{
    needed(room, trailer) <= room.lent
}

fn needed(room: Room, trailer: Trailer) -> usize
    requires { (trailer.stops ≤ most_stops) × (trailer.rows ≤ most_rows) × SmallRoom room }
    ensures { result ≡ needs room trailer }
{
    room.perrow * trailer.rows + room.perstop * trailer.stops + room.fixed
}

// Work is 4n + 2,500 numbers.
fn work_needs(lent: usize) -> Room
    ensures { result ≡ work_room lent }
{
    Room {
        lent,
        perrow: 4,
        perstop: 0,
        fixed: 2500,
    }
}

// A plan slice is 3n numbers.
fn plan_needs(lent: usize) -> Room
    ensures { result ≡ plan_room lent }
{
    Room {
        lent,
        perrow: 3,
        perstop: 0,
        fixed: 0,
    }
}

// As many work numbers as a call needs become 0.
#[tactic(auto, unfolding(crate::specs::Outcome::cleared))]
fn clear(work: &mut [u32], trailer: Trailer)
    requires { (trailer.stops ≤ most_stops) × (trailer.rows ≤ most_rows) × (needs (work_room (length work.old)) trailer ≤ length work.old) }
    ensures { work.new ≡ cleared (needs (work_room (length work.old)) trailer) work.old }
{
    let room = needed(work_needs(work.len()), trailer);
    work[..room].fill(0);
}

// The minimum expected arrival plan for a sailing file and a query, or a refusal.
pub fn plan(file: &[u8], q: Query, work: &mut [u32], plan: &mut [u32]) -> Result<Plan, Refusal<u32>>
    ensures { (result ≡ (plan_outcome version_one file.now q work.old plan.old).answer)
        × (work.new ≡ (plan_outcome version_one file.now q work.old plan.old).work)
        × (plan.new ≡ (plan_outcome version_one file.now q work.old plan.old).plan) }
{
    let trailer = admit(
        file,
        VERSION_ONE,
        q,
        work_needs(work.len()),
        plan_needs(plan.len()),
    )?;
    plan_admitted(file, VERSION_ONE, trailer, q, work, plan)
}

// The plan in a file of a version that the check has answered as sound, or a refusal from 6 on.
pub fn plan_checked(
    file: &[u8],
    f: Format,
    trailer: Trailer,
    q: Query,
    work: &mut [u32],
    plan: &mut [u32],
) -> Result<Plan, Refusal<u32>>
    requires { Plannable f × (checked_as f file.now ≡ Ok trailer) }
    ensures { (result ≡ (plan_outcome f file.now q work.old plan.old).answer)
        × (work.new ≡ (plan_outcome f file.now q work.old plan.old).work)
        × (plan.new ≡ (plan_outcome f file.now q work.old plan.old).plan) }
{
    admit_checked(
        f,
        trailer,
        q,
        work_needs(work.len()),
        plan_needs(plan.len()),
    )?;
    plan_admitted(file, f, trailer, q, work, plan)
}

// The plan or 8 of an admitted call; then work is cleared.
fn plan_admitted(
    file: &[u8],
    f: Format,
    trailer: Trailer,
    q: Query,
    work: &mut [u32],
    plan: &mut [u32],
) -> Result<Plan, Refusal<u32>>
    requires { Admits f file.now trailer q (work_room (length work.old)) (plan_room (length plan.old)) }
    ensures { (result ≡ (plan_outcome f file.now q work.old plan.old).answer)
        × (work.new ≡ (plan_outcome f file.now q work.old plan.old).work)
        × (plan.new ≡ (plan_outcome f file.now q work.old plan.old).plan) }
{
    let answer = plan_in_room(file, f, trailer, q, work, plan);
    clear(work, trailer);
    answer
}

// The earliest safe arrival for a sailing file, or a refusal.
pub fn earliest_safe_arrival(
    file: &[u8],
    source: usize,
    target: usize,
    minute: usize,
    work: &mut [u32],
) -> Result<u32, Refusal<u32>>
    ensures { (result ≡ (earliest_outcome version_one file.now (plain_query source target minute) work.old).answer)
        × (work.new ≡ (earliest_outcome version_one file.now (plain_query source target minute) work.old).work) }
{
    earliest_with_gate(file, source, target, minute, 0, work)
}

// The same where gates close so many minutes before departure.
pub fn earliest_with_gate(
    file: &[u8],
    source: usize,
    target: usize,
    minute: usize,
    gate: usize,
    work: &mut [u32],
) -> Result<u32, Refusal<u32>>
    ensures { (result ≡ (earliest_outcome version_one file.now (with_gate gate (plain_query source target minute)) work.old).answer)
        × (work.new ≡ (earliest_outcome version_one file.now (with_gate gate (plain_query source target minute)) work.old).work) }
{
    let q = Query {
        source,
        target,
        minute,
        code: 0,
        margin: LEAST_MARGIN,
        gate,
    };
    let trailer = admit(file, VERSION_ONE, q, work_needs(work.len()), NO_ROOM)?;
    earliest_admitted(file, VERSION_ONE, trailer, q, work)
}

// The earliest safe arrival in a file of a version that the check has answered as sound, or a refusal from 6 on.
pub fn earliest_checked(
    file: &[u8],
    f: Format,
    trailer: Trailer,
    q: Query,
    work: &mut [u32],
) -> Result<u32, Refusal<u32>>
    requires { Plannable f × (checked_as f file.now ≡ Ok trailer) }
    ensures { (result ≡ (earliest_outcome f file.now q work.old).answer)
        × (work.new ≡ (earliest_outcome f file.now q work.old).work) }
{
    admit_checked(f, trailer, q, work_needs(work.len()), NO_ROOM)?;
    earliest_admitted(file, f, trailer, q, work)
}

// E or 8 of an admitted call; then work is cleared.
fn earliest_admitted(
    file: &[u8],
    f: Format,
    trailer: Trailer,
    q: Query,
    work: &mut [u32],
) -> Result<u32, Refusal<u32>>
    requires { Admits f file.now trailer q (work_room (length work.old)) no_room }
    ensures { (result ≡ (earliest_outcome f file.now q work.old).answer)
        × (work.new ≡ (earliest_outcome f file.now q work.old).work) }
{
    let end = earliest_in_room(file, f, trailer, q, work);
    clear(work, trailer);
    end.ok_or(Refusal {
        number: 8,
        place: 0,
    })
}
