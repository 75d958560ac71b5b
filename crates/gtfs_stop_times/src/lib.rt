// Document 02, E2: the calls that `stop_times.txt` says, and the rows of neighbouring calls.
#![tactic(auto)]

ghost use Rattle.std.specs.Prelude.{ℕ, List, not, [], ◌≡◌, ◌+◌, ◌*◌, ◌≤◌, ◌<◌, leb, length};
ghost use Rattle.std.proofs.Math.Seq.{slice};
ghost use Rattle.timetable.specs.Limits.{most_trips};
ghost use Rattle.gtfs_ids.specs.Book.{cell_of};
ghost use Rattle.gtfs_stop_times.specs.Held.{CallFits, Found, Held, Holding, Ready, TakenAs, count_with, entered, with_call};
ghost use Rattle.gtfs_stop_time.specs.StopTime.{last_minute};
ghost use Rattle.gtfs_stop_times.specs.Steps.{LinesRead, ReadAs, missing_column, read_behind};
ghost use Rattle.text.specs.Put.{Put};
ghost use Rattle.gtfs_calls.specs.Reading.{stop_times};
ghost use Rattle.gtfs_calls.specs.Names.{id_line, line_room};
ghost use Rattle.gtfs_stop_times.specs.Putting.{IdsHeld, IdsPut, WantedPut};
ghost use Rattle.gtfs_stop_times.specs.Answers.{out_after, read_answer, wanted_room};

use file_writing::put_row;
use gtfs_ids::{Key, add, number_of, place_of, size_of};
use gtfs_lines::{Columns, header_columns, line_at};
use gtfs_order::put_in_order;
use gtfs_stop_time::{Call, FieldFault, call_of};
use numbers::{cell, number};
use text::{put_byte, put_text};
use timetable::{MOST_ROWS, MOST_STOPS, MOST_TRIPS, Row};

// How many trips, stops and rows there are so far.
#[derive(Clone, Copy)]
pub struct Counts {
    pub trips: usize,
    pub stops: usize,
    pub rows: usize,
}

// What is written of the calls: their rows in order, or the names of their ids.
#[derive(Clone, Copy)]
pub enum Wanted {
    Rows,
    Names,
}

// All lines were read: so many trips, stops and rows, and so many bytes were written.
#[derive(Clone, Copy)]
pub struct Listed {
    pub counts: Counts,
    pub bytes: usize,
}

// The first fault of the text, its line and the column that it is in: 0 for the line as a whole, as `TextFault` and document 02 have it.
#[derive(Clone, Copy)]
pub struct LineFault {
    pub number: usize,
    pub line: usize,
    pub column: usize,
}

// The columns that are wanted, and the minute at which the service day starts.
#[derive(Clone, Copy)]
struct Service {
    columns: Columns,
    start: usize,
}

// The cells of a book of ids for the most trips, and for the most stops.
const TRIP_CELLS: usize = 11021;

const STOP_CELLS: usize = 2021;

// Three cells for the last call of each trip.
const CALL_CELLS: usize = 6000;

// The bytes of the most rows.
const ROW_BYTES: usize = 24000;

// The calls so far: the books of their trips and stops, each trip's last call, the rows as read, and how many there are.
// Room for the most with the counts beside, since memory is fixed and nothing lies on the heap.
#[derive(Drop)]
struct Notes {
    trips: [u64; TRIP_CELLS],
    stops: [u64; STOP_CELLS],
    last: [u32; CALL_CELLS],
    rows: [u8; ROW_BYTES],
    counts: Counts,
}

// Whether an id of this number, new if it is the count, is one too many.
fn is_too_many(number: usize, count: usize, most: usize) -> bool
    requires { (number ≤ count) × (count ≤ most) }
    ensures { result ≡ not (leb (count_with count number) most) }
{
    if number < count {
        return false;
    }
    count == most
}

// Enters an id into a book if it is new, which it is if its number is the count; how many ids there are then.
fn enter(book: &mut [u64], count: usize, number: usize, key: Key, place: usize) -> usize
    requires { (cell_of (count_with count number) ≤ length book.old) × (count < 65536) }
    ensures { (book.new ≡ entered book.old count number key place) × (result ≡ count_with count number) }
{
    if number == count {
        add(book, count, key, place);
        return count + 1;
    }
    count
}

// The first of the five columns that the header lacks.
#[tactic(auto, unfolding(crate::specs::Steps::missing_column))]
fn missing_column(columns: Columns) -> Option<usize>
    ensures { result ≡ missing_column columns }
{
    if columns.trip.is_none() {
        return Some(1);
    }
    if columns.arrival.is_none() {
        return Some(2);
    }
    if columns.departure.is_none() {
        return Some(3);
    }
    if columns.stop.is_none() {
        return Some(4);
    }
    if columns.sequence.is_none() {
        return Some(5);
    }
    None
}

// One id's line from `at` on: the word, the id between quote marks, an LF; where the next line goes.
fn put_id(text: &[u8], from: usize, size: usize, word: &[u8], out: &mut [u8], at: usize) -> usize
    requires { (from + size ≤ length text.now) × (length word.now + size + 3 + at ≤ length out.old) }
    ensures { Put out.old at (id_line word.now (slice from (from + size) text.now)) out.new result }
{
    let to = from + size;
    let mut next = put_text(out, at, word, 0);
    next = put_byte(out, next, b'"');
    next = put_text(out, next, &text[from..to], 0);
    next = put_byte(out, next, b'"');
    put_byte(out, next, b'\n')
}

// A line for each of the first `count` ids of a book, from `at` on; where the next text goes.
fn put_ids(text: &[u8], book: &[u64], count: usize, word: &[u8], out: &mut [u8], at: usize) -> usize
    requires { IdsHeld text.now book.now count × (length word.now ≤ 5) × (at + line_room * count ≤ length out.old) }
    ensures { IdsPut text.now book.now count word.now out.old at out.new result }
{
    let mut next = at;
    for i in 0..count {
        let from = place_of(book, i) as usize;
        let size = size_of(book, i) as usize;
        next = put_id(text, from, size, word, out, next);
    }
    next
}

impl Notes {
    // Before the first line.
    fn none() -> Notes
        ensures { (text : List ℕ) → Held text [] result }
    {
        Notes {
            trips: [0u64; TRIP_CELLS],
            stops: [0u64; STOP_CELLS],
            last: [0u32; CALL_CELLS],
            rows: [0u8; ROW_BYTES],
            counts: Counts {
                trips: 0,
                stops: 0,
                rows: 0,
            },
        }
    }

    // Keeps a trip's last call: its stop, departure and stop_sequence. The stop is entered if it is new.
    fn keep_call(&mut self, call: Call, trip: usize, stop: usize)
        requires { CallFits call stop self.old × (trip < most_trips) }
        ensures { self.new ≡ with_call self.old call trip stop }
    {
        let at = 3 * trip;
        self.last[at] = cell(stop);
        self.last[at + 1] = cell(call.departure);
        self.last[at + 2] = cell(call.sequence);
        let count = self.counts.stops;
        self.counts.stops = enter(&mut self.stops, count, stop, call.stop, call.stopplace);
    }

    // A call of a trip that has one: a row ends there.
    fn next_call(&mut self, call: Call, trip: usize, stop: usize) -> Result<(), FieldFault>
        requires { Ready call self.old × Found call self.old trip stop × (trip < self.old.counts.trips) }
        ensures { TakenAs call self.old result self.new }
    {
        let at = 3 * trip;
        if call.sequence <= number(self.last[at + 2]) {
            return Err(FieldFault {
                number: 13,
                column: 0,
            });
        }
        if is_too_many(stop, self.counts.stops, MOST_STOPS) {
            return Err(FieldFault {
                number: 9,
                column: 4,
            });
        }
        if self.counts.rows == MOST_ROWS {
            return Err(FieldFault {
                number: 9,
                column: 0,
            });
        }
        let row = Row {
            board: number(self.last[at]),
            land: stop,
            departure: number(self.last[at + 1]),
            arrival: call.arrival,
            trip,
            class: 0,
        };
        let behind = 12 * self.counts.rows;
        put_row(&mut self.rows, behind, row);
        self.counts.rows += 1;
        self.keep_call(call, trip, stop);
        Ok(())
    }

    // The first call of a trip.
    fn first_call(&mut self, call: Call, stop: usize) -> Result<(), FieldFault>
        requires { Ready call self.old × Found call self.old self.old.counts.trips stop }
        ensures { TakenAs call self.old result self.new }
    {
        let trip = self.counts.trips;
        if trip == MOST_TRIPS {
            return Err(FieldFault {
                number: 9,
                column: 1,
            });
        }
        if is_too_many(stop, self.counts.stops, MOST_STOPS) {
            return Err(FieldFault {
                number: 9,
                column: 4,
            });
        }
        add(&mut self.trips, trip, call.trip, call.tripplace);
        self.counts.trips += 1;
        self.keep_call(call, trip, stop);
        Ok(())
    }

    // One call more.
    fn take_call(&mut self, call: Call) -> Result<(), FieldFault>
        requires { Ready call self.old }
        ensures { TakenAs call self.old result self.new }
    {
        let trip = number_of(&self.trips, self.counts.trips, call.trip);
        let stop = number_of(&self.stops, self.counts.stops, call.stop);
        if trip < self.counts.trips {
            return self.next_call(call, trip, stop);
        }
        self.first_call(call, stop)
    }

    // The line that starts at `at`; where the next one starts.
    fn read_line(&mut self, text: &[u8], at: usize, service: Service) -> Result<usize, FieldFault>
        requires { (at < length text.now) × (service.start ≤ last_minute) × Holding text.now self.old }
        ensures { ReadAs text.now at service self.old result self.new }
    {
        let Some(cut) = line_at(text, at, service.columns) else {
            return Err(FieldFault {
                number: 11,
                column: 0,
            });
        };
        let call = call_of(text, cut.fields, service.start)?;
        self.take_call(call)?;
        Ok(cut.next)
    }

    // The lines from `begin` on, the first of which is line 2.
    fn read_lines(&mut self, text: &[u8], begin: usize, service: Service) -> Result<(), LineFault>
        requires { (1 ≤ begin) × (begin ≤ length text.now) × (service.start ≤ last_minute) × Held text.now [] self.old }
        ensures { LinesRead text.now (read_behind text.now begin service) result self.new }
    {
        let mut at = begin;
        let mut behind = 0;
        // No range has these places: each line says where the next one starts.
        while at < text.len() {
            match self.read_line(text, at, service) {
                Ok(next) => at = next,
                Err(fault) => {
                    return Err(LineFault {
                        number: fault.number,
                        line: behind + 2,
                        column: fault.column,
                    });
                }
            }
            behind += 1;
        }
        Ok(())
    }

    // What is wanted of the calls, over the first bytes of `out`; how many bytes.
    fn put_wanted(&self, wanted: Wanted, text: &[u8], out: &mut [u8]) -> usize
        requires { Holding text.now self.now × (wanted_room wanted ≤ length out.old) }
        ensures { WantedPut wanted text.now self.now out.old out.new result }
    {
        match wanted {
            Wanted::Rows => {
                put_in_order(&self.rows, self.counts.rows, out);
                12 * self.counts.rows
            }
            Wanted::Names => {
                let next = put_ids(text, &self.stops, self.counts.stops, b"stop ", out, 0);
                put_ids(text, &self.trips, self.counts.trips, b"trip ", out, next)
            }
        }
    }
}

// What is wanted of the lines from `begin` on, over the first bytes of `out`.
fn wanted_behind(
    text: &[u8],
    begin: usize,
    service: Service,
    wanted: Wanted,
    out: &mut [u8],
) -> Result<Listed, LineFault>
    requires { (1 ≤ begin) × (begin ≤ length text.now) × (service.start ≤ last_minute) × (wanted_room wanted ≤ length out.old) }
    ensures { (result ≡ read_answer wanted (read_behind text.now begin service))
        × (out.new ≡ out_after wanted (read_behind text.now begin service) out.old) }
{
    let mut notes = Notes::none();
    notes.read_lines(text, begin, service)?;
    let bytes = notes.put_wanted(wanted, text, out);
    Ok(Listed {
        counts: notes.counts,
        bytes,
    })
}

// What is wanted of the calls that the text says, over the first bytes of `out`; or the first fault, which changes nothing.
pub fn stop_times(
    text: &[u8],
    start: usize,
    wanted: Wanted,
    out: &mut [u8],
) -> Result<Listed, LineFault>
    requires { (start ≤ last_minute) × (wanted_room wanted ≤ length out.old) }
    ensures { (result ≡ read_answer wanted (stop_times start text.now))
        × (out.new ≡ out_after wanted (stop_times start text.now) out.old) }
{
    let Some(header) = header_columns(text) else {
        return Err(LineFault {
            number: 11,
            line: 1,
            column: 0,
        });
    };
    let columns = header.columns;
    if let Some(column) = missing_column(columns) {
        return Err(LineFault {
            number: 11,
            line: 1,
            column,
        });
    }
    wanted_behind(text, header.next, Service { columns, start }, wanted, out)
}
