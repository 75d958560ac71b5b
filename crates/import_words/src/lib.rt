// For the office: why the partner's `stop_times.txt` is refused, with the line and the field, and what helps.
#![tactic(auto)]

use explain_words::{say, say_number};
use files::Output;
use gtfs_import::{Place, fault_place};
use timetable::{FEWEST_STOPS, MOST_ROWS, MOST_STOPS, MOST_TRIPS, Refusal};

// The columns as `fault_place` numbers them; 0 stands for the line as a whole.
const TRIP_ID: usize = 1;

const ARRIVAL_TIME: usize = 2;

const DEPARTURE_TIME: usize = 3;

const STOP_ID: usize = 4;

const STOP_SEQUENCE: usize = 5;

// The bytes that some programs put ahead of a text.
const MARK: [u8; 3] = [0xef, 0xbb, 0xbf];

// A refusal of the import of a text for a service day: its number on a line, then the reason.
pub fn say_refusal(out: &Output, text: &[u8], day: usize, refusal: Refusal<usize>) {
    let number = refusal.number;
    say_refused(out, number);
    // by the documents' own numbers, which their theorems and the printed line speak of
    match number {
        1 => say_few_stops(out),
        4 => say_row(
            out,
            refusal.place,
            b": two calls that follow each other in a trip are at the same stop, or the later arrives no later than the earlier departs.\nAlong a trip each call is at another stop than the one before it, and arrives a minute or more after that one's departure.\n",
        ),
        5 => say_row(
            out,
            refusal.place,
            b": its trip is elsewhere by then, or has yet to land there, since a call stands behind one that is later.\nAlong a trip times rise from call to call.\n",
        ),
        6 => say_day(out, day),
        _ => say_fault(out, text, day, number),
    }
}

pub fn say_refused(out: &Output, number: usize) {
    say_number(out, b"refused ", number);
    say(out, b"\n");
}

// 1: the other counts of a file stay in their ranges.
fn say_few_stops(out: &Output) {
    say_number(out, b"Its calls are at fewer than ", FEWEST_STOPS);
    say(
        out,
        b" stops, and a timetable has that many at least.\nIs it the partner's whole file, with a line for each call?\n",
    );
}

// 4 and 5: the row is told by its number in the file that is not written.
fn say_row(out: &Output, place: usize, words: &[u8]) {
    say_number(out, b"Row ", place);
    say(
        out,
        b" of what would be written, counted from 0 by departure",
    );
    say(out, words);
}

fn say_day(out: &Output, day: usize) {
    say_number(out, b"The service day is ", day);
    say(out, b", but it must be 1 to 7.\n");
}

// 9 and 11 to 13: the first fault of the text.
fn say_fault(out: &Output, text: &[u8], day: usize, number: usize) {
    let Some(at) = fault_place(text, day) else {
        return;
    };
    say_place(out, at.line, at.column);
    match number {
        11 => say_unread(out, text, at),
        12 => say_wrong_time(out, at.column),
        13 => say_wrong_sequence(out, at.column),
        _ => say_too_many(out, at.column),
    }
}

fn say_place(out: &Output, line: usize, column: usize) {
    say_number(out, b"Line ", line);
    match column {
        TRIP_ID => say(out, b", trip_id: "),
        ARRIVAL_TIME => say(out, b", arrival_time: "),
        DEPARTURE_TIME => say(out, b", departure_time: "),
        STOP_ID => say(out, b", stop_id: "),
        STOP_SEQUENCE => say(out, b", stop_sequence: "),
        _ => say(out, b": "),
    }
}

// 11: the header's line has columns, all others have fields.
fn say_unread(out: &Output, text: &[u8], at: Place) {
    if at.column == 0 {
        say(
            out,
            b"there is a quote mark.\nFields are read as they stand: take the quote marks away, and a comma between two of them too.\n",
        );
        return;
    }
    if at.line == 1 {
        say(
            out,
            b"the header has no such column.\nThe columns trip_id, arrival_time, departure_time, stop_id and stop_sequence are needed, in any order.\n",
        );
        say_mark(out, text);
        return;
    }
    if at.column == TRIP_ID || at.column == STOP_ID {
        say(out, b"the id is missing, empty or longer than 16 bytes.\n");
    } else {
        say(out, b"the field is missing or empty.\n");
    }
    say(
        out,
        b"Each call needs its trip, stop, both times and stop_sequence: ask the partner for them.\n",
    );
}

// A mark ahead of the header makes its first column another.
fn say_mark(out: &Output, text: &[u8]) {
    if text.starts_with(&MARK) {
        say(
            out,
            b"The file starts with a byte order mark, which is read as part of the first column's name: save it without one.\n",
        );
    }
}

fn say_wrong_time(out: &Output, column: usize) {
    if column == 0 {
        say(
            out,
            b"departure_time is before arrival_time.\nCorrect one of the two; where they are equal the bus does not wait.\n",
        );
        return;
    }
    say(
        out,
        b"it is no time such as 7:05:00, its seconds are not 00, or it is past the end of day 7.\nWrite hours, minutes and seconds. Hours go on behind midnight: 25:10:00 on service day 1 is d2 01:10.\n",
    );
}

fn say_wrong_sequence(out: &Output, column: usize) {
    if column == 0 {
        say(
            out,
            b"stop_sequence is not above that of the call before it in its trip.\nPut the calls of each trip into the order in which it makes them.\n",
        );
        return;
    }
    say(
        out,
        b"it is no whole number from 0 to 65535.\nWrite it in plain digits.\n",
    );
}

// 9: what a file has the most of.
fn say_too_many(out: &Output, column: usize) {
    match column {
        TRIP_ID => say_most(out, MOST_TRIPS, b" trips"),
        STOP_ID => say_most(out, MOST_STOPS, b" stops"),
        _ => say_most(
            out,
            MOST_ROWS,
            b" rows, one for each two calls that follow each other in a trip",
        ),
    }
    say(
        out,
        b".\nTake the trips of this service day alone, or those of fewer lines.\n",
    );
}

fn say_most(out: &Output, most: usize, things: &[u8]) {
    say_number(out, b"more than ", most);
    say(out, things);
}
