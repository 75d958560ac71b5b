// Document 01, "The sheet": the text for a file of sailings and a query, written into lent bytes.
#![tactic(auto)]

ghost use Rattle.std.specs.Prelude.{Ok, ◌≡◌, ◌+◌, ◌*◌, ◌≤◌, ◌<◌, length, take};
ghost use Rattle.timetable.specs.Timetable.{row_of};
ghost use Rattle.file_layout.specs.Check.{checked_as};
ghost use Rattle.file_layout.specs.Decode.{decode, trailer_of};
ghost use Rattle.file_layout.specs.Format.{version_one};
ghost use Rattle.file_layout.specs.Small.{SmallRow};
ghost use Rattle.file_layout.specs.Sound.{SoundFile};
ghost use Rattle.clock.specs.Text.{time_text, widest};
ghost use Rattle.sheet_text.specs.Sheet.{asked_text, call_text, expected_text, first_text, line_text, refused_text, rides_text};
ghost use Rattle.text.specs.Put.{Put, number_width};
ghost use Rattle.rooms.specs.Rooms.{zeros};
ghost use Rattle.sheet_text.specs.Room.{first_width, line_width, sheet_room};
ghost use Rattle.plan_rows.specs.Sections.{Plannable};
ghost use Rattle.plan_slice.specs.Slice.{RidesFit, rides_in};
ghost use Rattle.sheet_text.specs.Outcome.{sheet_outcome};

use clock::Minute;
use file_check::check_as;
use file_layout::{Format, Trailer, VERSION_ONE, row_at};
use numbers::{cell, number};
use plan_slice::ride_at;
use planner::plan_checked;
use query::{Query, query_in};
use rooms::{plan_room, work_room};
use text::{put_byte, put_number, put_text};
use timetable::Row;

// Enough for a first line and 2,000 rides.
pub const SHEET_ROOM: usize = 174056;

pub fn sheet_room() -> [u8; SHEET_ROOM]
    ensures { (result ≡ zeros sheet_room) × (length result ≡ sheet_room) }
{
    [0u8; SHEET_ROOM]
}

fn put_time(out: &mut [u8], at: usize, time: Minute) -> usize
    requires { at + widest ≤ length out.old }
    ensures { Put out.old at (time_text time.minute) out.new result × (result ≤ at + widest) }
{
    let text = time.time_text();
    let bytes = text.bytes;
    let start = text.start;
    put_text(out, at, &bytes, start)
}

// An expected arrival, rounded up to a minute.
fn put_expected(out: &mut [u8], at: usize, ticks: u32) -> usize
    requires { at + widest ≤ length out.old }
    ensures { Put out.old at (expected_text ticks) out.new result × (result ≤ at + widest) }
{
    put_time(out, at, Minute::of_ticks(ticks))
}

// A stop and a time there.
fn put_call(out: &mut [u8], at: usize, stop: usize, minute: usize) -> usize
    requires { (at + number_width + 1 + widest ≤ length out.old) × (minute < 65536) }
    ensures { Put out.old at (call_text stop minute) out.new result × (result ≤ at + (number_width + 1 + widest)) }
{
    let next = put_number(out, at, stop);
    let next = put_byte(out, next, b' ');
    let time = Minute {
        minute: cell(minute),
    };
    put_time(out, next, time)
}

// The line of a ride: boarding stop and time, landing stop and time, expected.
fn put_line(out: &mut [u8], at: usize, board: Row, leave: Row, worth: u32) -> usize
    requires { (at + line_width ≤ length out.old) × (board.departure < 65536) × (leave.arrival < 65536) }
    ensures { Put out.old at
        (line_text board.board board.departure leave.land leave.arrival worth)
        out.new result × (result ≤ at + line_width) }
{
    let next = put_call(out, at, board.board, board.departure);
    let next = put_byte(out, next, b' ');
    let next = put_call(out, next, leave.land, leave.arrival);
    let next = put_byte(out, next, b' ');
    let next = put_expected(out, next, worth);
    put_byte(out, next, b'\n')
}

// A refusal by its number.
fn put_refused(out: &mut [u8], refusal: usize) -> usize
    requires { first_width ≤ length out.old }
    ensures { Put out.old 0 (refused_text refusal) out.new result × (result ≤ length out.old) }
{
    let next = put_text(out, 0, b"refused ", 0);
    let next = put_number(out, next, refusal);
    put_byte(out, next, b'\n')
}

// First line: rides, expected, latest.
fn put_first(out: &mut [u8], rides: usize, expected: u32, latest: u32) -> usize
    requires { first_width ≤ length out.old }
    ensures { Put out.old 0 (first_text rides expected latest) out.new result × (result ≤ first_width) }
{
    let next = put_text(out, 0, b"plan ", 0);
    let next = put_number(out, next, rides);
    let next = put_byte(out, next, b' ');
    let next = put_expected(out, next, expected);
    let next = put_byte(out, next, b' ');
    let next = put_time(out, next, Minute { minute: latest });
    put_byte(out, next, b'\n')
}

// Row number `i` of a sound file, which has this trailer.
fn row_of(sailings: &[u8], f: Format, trailer: Trailer, i: usize) -> Row
    requires { SoundFile f sailings.now × (trailer ≡ trailer_of f sailings.now) × (i < trailer.rows) }
    ensures { (result ≡ row_of (decode f sailings.now).rows i) × SmallRow result }
{
    row_at(sailings, trailer.rowstart + f.width * i)
}

// A line a ride of the plan slice, from `at` on.
fn put_rides(
    sailings: &[u8],
    f: Format,
    trailer: Trailer,
    plan: &[u32],
    rides: usize,
    out: &mut [u8],
    at: usize,
) -> usize
    requires sound_file { SoundFile f sailings.now × (trailer ≡ trailer_of f sailings.now) × RidesFit trailer.rows plan.now rides }
    requires line_width_in_bounds { at + rides * line_width ≤ length out.old }
    ensures { Put out.old at
        (rides_text (rides_in (decode f sailings.now) (take (3 * rides) plan.now)))
        out.new result × (result ≤ length out.old) }
{
    let mut next = at;
    for i in 0..rides {
        let ride = ride_at(plan, i);
        let board = row_of(sailings, f, trailer, number(ride.board));
        let leave = row_of(sailings, f, trailer, number(ride.leave));
        next = put_line(out, next, board, leave, ride.worth);
    }
    next
}

// The sheet of a sound file and a query: a plan or a planning refusal.
fn put_planned(sailings: &[u8], f: Format, trailer: Trailer, q: Query, out: &mut [u8]) -> usize
    requires { Plannable f × (checked_as f sailings.now ≡ Ok trailer) × (sheet_room ≤ length out.old) }
    ensures { Put out.old 0 (asked_text f sailings.now q) out.new result × (result ≤ length out.old) }
{
    let mut work = work_room();
    let mut rides = plan_room();
    match plan_checked(sailings, f, trailer, q, &mut work, &mut rides) {
        Err(refusal) => put_refused(out, number(refusal.number)),
        Ok(plan) => {
            let count = number(plan.rides);
            let next = put_first(out, count, plan.expected, plan.latest);
            put_rides(sailings, f, trailer, &rides, count, out, next)
        }
    }
}

// The sheet of a file of sailings and a query, from the first byte of `out` on, and where it ends; bytes beyond it stay. None where `out` has too little room.
pub fn sheet(sailings: &[u8], query: &[u8], out: &mut [u8]) -> Option<usize>
    ensures { (result ≡ (sheet_outcome version_one sailings.now query.now out.old).answer)
        × (out.new ≡ (sheet_outcome version_one sailings.now query.now out.old).out) }
{
    sheet_as(sailings, VERSION_ONE, query, out)
}

// The sheet of a file of a version: a checked file goes on to planning; any other answer prints its number at once.
fn sheet_as(sailings: &[u8], f: Format, query: &[u8], out: &mut [u8]) -> Option<usize>
    requires { Plannable f }
    ensures { (result ≡ (sheet_outcome f sailings.now query.now out.old).answer)
        × (out.new ≡ (sheet_outcome f sailings.now query.now out.old).out) }
{
    if out.len() < SHEET_ROOM {
        return None;
    }
    let end = match check_as(sailings, f) {
        Err(refusal) => put_refused(out, refusal.number),
        Ok(trailer) => put_planned(sailings, f, trailer, query_in(query), out),
    };
    Some(end)
}
