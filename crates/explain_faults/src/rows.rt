// Refusals 4 and 5: a row about itself alone, and behind the rows before it.
ghost use Rattle.std.specs.Prelude.{◌<◌};

use crate::broken::{BrokenFile, NumberedRow};
use explain_words::{say, say_number, say_time};
use files::Output;
use timetable::{
    MOST_TRIPS, Ranges, Row, departure_rule, lands_there, minute_rule, onward, stop_rule,
    stops_differ, trip_rule,
};

// 4: the first rule about itself alone that the row breaks.
pub fn print_own_fault(out: &Output, broken: BrokenFile, place: usize)
    requires { broken.f.lastminute < 65536 }
{
    let numbered = broken.row(place);
    let ranges = Ranges {
        stops: broken.trailer.stops,
        classes: broken.trailer.classes,
        lastminute: broken.f.lastminute,
    };
    say_number(out, b"Row ", place);
    say_own_fault(out, numbered, ranges);
    print_row(out, numbered);
}

// Where the rules of stops, minutes and trip are kept, that of the class is broken.
fn say_own_fault(out: &Output, numbered: NumberedRow, g: Ranges)
    requires { g.lastminute < 65536 }
{
    let row = numbered.row;
    if !stop_rule(row.board, g) {
        say_too_high(out, b": boarding stop ", row.board, g.stops, b" stops");
    } else if !stop_rule(row.land, g) {
        say_too_high(out, b": landing stop ", row.land, g.stops, b" stops");
    } else if !stops_differ(row) {
        say_same_stop(out, row);
    } else if !onward(row) {
        say_not_onward(out, numbered);
    } else if !minute_rule(row.departure, g) {
        say_past_last(out, b" departs at ", row.departure, g.lastminute);
    } else if !minute_rule(row.arrival, g) {
        say_past_last(out, b" arrives at ", row.arrival, g.lastminute);
    } else if !trip_rule(row) {
        say_too_high(out, b": trip ", row.trip, MOST_TRIPS, b" trips");
    } else {
        say_too_high(out, b": class ", row.class, g.classes, b" classes");
    }
}

// Numbers count from 0, so they stay below how many there are.
fn say_too_high(out: &Output, name: &[u8], found: usize, count: usize, things: &[u8]) {
    say_number(out, name, found);
    if count == 1 {
        say(out, b", but there is only one, numbered 0.\n");
        return;
    }
    say_number(out, b", but there are ", count);
    say(out, things);
    say(out, b", numbered from 0.\n");
}

fn say_same_stop(out: &Output, row: Row) {
    say_number(out, b": boards and lands at the same stop, ", row.board);
    say(out, b".\n");
}

fn say_not_onward(out: &Output, numbered: NumberedRow) {
    say_time(out, b" departs at ", numbered.row.departure);
    say_time(out, b", but arrives at ", numbered.row.arrival);
    say(out, b", not later.\n");
}

fn say_past_last(out: &Output, words: &[u8], minute: usize, last: usize)
    requires { (minute < 65536) × (last < 65536) }
{
    say_time(out, words, minute);
    say_time(out, b", past the last minute of the week, ", last);
    say(out, b".\n");
}

// The row's numbers, on a line of their own.
fn print_row(out: &Output, numbered: NumberedRow) {
    let row = numbered.row;
    say_number(out, b"Row ", numbered.place);
    say_number(out, b" reads: from stop ", row.board);
    say_number(out, b" to stop ", row.land);
    say_time(out, b", departs ", row.departure);
    say_time(out, b", arrives ", row.arrival);
    say_number(out, b", trip ", row.trip);
    say_number(out, b", class ", row.class);
    say(out, b".\n");
}

// 5: the row departs before the one ahead of it, or its trip breaks off.
pub fn print_order_fault(out: &Output, broken: BrokenFile, place: usize) {
    let numbered = broken.row(place);
    if 0 < place {
        let ahead = broken.row(place - 1);
        if !departure_rule(ahead.row.departure, numbered.row) {
            print_departure_fault(out, numbered, ahead);
            return;
        }
    }
    print_trip_fault(out, broken, numbered);
}

// The row departs before `ahead`, the one ahead of it.
fn print_departure_fault(out: &Output, numbered: NumberedRow, ahead: NumberedRow) {
    say_number(out, b"Row ", numbered.place);
    say_time(out, b" departs at ", numbered.row.departure);
    say_number(out, b", before row ", ahead.place);
    say_time(out, b" at ", ahead.row.departure);
    say(out, b".\n");
    print_row(out, numbered);
    print_row(out, ahead);
}

// The trip leaves from another stop than where it last landed, or before it lands.
fn print_trip_fault(out: &Output, broken: BrokenFile, numbered: NumberedRow) {
    let Some(last) = broken.last_of_trip(numbered) else {
        return;
    };
    let row = numbered.row;
    let earlier = last.row;
    say_number(out, b"Row ", numbered.place);
    say_number(out, b": trip ", row.trip);
    if lands_there(earlier, row) {
        say_time(out, b" leaves at ", row.departure);
        say_time(out, b" but last lands at ", earlier.arrival);
    } else {
        say_number(out, b" leaves from stop ", row.board);
        say_number(out, b" but last landed at stop ", earlier.land);
    }
    say_number(out, b" (row ", last.place);
    say(out, b").\n");
    print_row(out, numbered);
    print_row(out, last);
}
