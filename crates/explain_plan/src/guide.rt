// A plan in words that a clerk can follow.
ghost use Rattle.file_layout.specs.Format.{Readable};
ghost use Rattle.file_layout.specs.Small.{SmallRow};

use crate::gate::{closing, say_gate};
use explain_faults::row_in;
use explain_words::{say, say_number, say_time};
use file_layout::{Format, Trailer};
use files::Output;
use numbers::number;
use plan_slice::ride_at;
use timetable::Row;

// A ride by the rows where it boards and where it leaves.
#[derive(Clone, Copy)]
struct Ride {
    board: Row,
    leave: Row,
    ghost board_small: { SmallRow board },
    ghost leave_small: { SmallRow leave },
}

// A plan's rides, the file whose rows they name, and when gates close.
#[derive(Clone, Copy)]
struct Followed<'a> {
    file: &'a [u8],
    format: Format,
    rowstart: usize,
    plan: &'a [u32],
    rides: usize,
    gate: usize,
    ghost readable: { Readable format },
}

// When gates close, the first ride of a plan, then for each stop what to take there.
pub fn print_plan(
    out: &Output,
    file: &[u8],
    f: Format,
    trailer: Trailer,
    plan: &[u32],
    rides: usize,
    gate: usize,
)
    requires { Readable f }
{
    if 0 < gate {
        say_gate(out, b"Gates close ", gate);
        say(out, b".\n");
    }
    let followed = Followed {
        file,
        format: f,
        rowstart: trailer.rowstart,
        plan,
        rides,
        gate,
    };
    let first = followed.ride(0);
    say_number(out, b"From stop ", first.board.board);
    print_ride(out, first);
    say(out, b".\n");
    for stop in 0..trailer.stops {
        followed.print_landing(out, stop);
    }
}

impl Followed<'_> {
    // Ride number `place` of the plan.
    fn ride(self, place: usize) -> Ride {
        if place < self.plan.len() / 3 {
            let ride = ride_at(self.plan, place);
            Ride {
                board: self.row(ride.board),
                leave: self.row(ride.leave),
            }
        } else {
            let none = self.row(0);
            Ride {
                board: none,
                leave: none,
            }
        }
    }

    fn row(self, cell: u32) -> Row
        ensures { SmallRow result }
    {
        row_in(self.file, self.format, self.rowstart, number(cell))
    }

    // The rides behind the first that board at `stop`, each for those who land by the minute when its gate closes.
    fn print_landing(self, out: &Output, stop: usize) {
        let mut found = false;
        for place in 1..self.rides {
            let ride = self.ride(place);
            if ride.board.board == stop {
                print_choice(out, stop, found, ride, self.gate);
                found = true;
            }
        }
        if found {
            say(out, b".\n");
        }
    }
}

// A ride to take at a stop, the first that is named there or a further one.
fn print_choice(out: &Output, stop: usize, further: bool, ride: Ride, gate: usize) {
    if further {
        say(out, b";");
    } else {
        say_number(out, b"Landing at stop ", stop);
    }
    say_time(out, b" by ", closing(ride.board.departure, gate));
    say(out, b",");
    print_ride(out, ride);
}

fn print_ride(out: &Output, ride: Ride) {
    say_time(out, b" take the ", ride.board.departure);
    say_number(out, b" (trip ", ride.board.trip);
    say_number(out, b") to stop ", ride.leave.land);
    say_time(out, b", due at ", ride.leave.arrival);
}
