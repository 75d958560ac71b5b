// Document 02, E2: what one line of `stop_times.txt` says by itself: a call, or the first fault of its fields.
#![tactic(auto)]

ghost use Rattle.std.specs.Prelude.{◌≡◌, ◌≤◌, ℕ, length};
ghost use Rattle.gtfs_stop_time.specs.StopTime.{last_minute};
ghost use Rattle.gtfs_stop_time.specs.Said.{AllInside, said_of, span_filled, span_id, unfilled_column};

use gtfs_fields::{time_within, whole_below};
use gtfs_ids::{Key, key_of};
use gtfs_lines::{Fields, Span};

// What a line says by itself: the keys of its ids and where they lie, its minutes and its place in the trip.
#[derive(Clone, Copy)]
pub struct Call {
    pub trip: Key,
    pub tripplace: usize,
    pub stop: Key,
    pub stopplace: usize,
    pub arrival: usize,
    pub departure: usize,
    pub sequence: usize,
}

// The fault of a line's fields by themselves: its number, and the column that it is in; 0 for the line as a whole.
#[derive(Clone, Copy)]
pub struct FieldFault {
    pub number: usize,
    pub column: usize,
}

// Minutes go to 10,079.
pub const LAST_MINUTE: usize = 10079;

// A stop_sequence is below 65,536.
const SEQUENCE_LIMIT: usize = 65536;

// An id has at most 16 bytes.
const LONGEST_ID: usize = 16;

// Whether an id lies there: 1 to 16 bytes.
fn is_id(span: Span) -> bool
    requires { span.from ≤ span.to }
    ensures { result ≡ span_id span }
{
    let size = span.len();
    1 <= size && size <= LONGEST_ID
}

// Whether anything lies there.
fn is_filled(span: Span) -> bool
    requires { span.from ≤ span.to }
    ensures { result ≡ span_filled span }
{
    0 < span.len()
}

// The first column whose field is missing, empty, or an id too long.
#[tactic(auto, unfolding(crate::specs::Said::unfilled_column))]
fn unfilled(fields: Fields) -> Option<usize>
    requires { (bytes : ℕ) × AllInside bytes fields }
    ensures { result ≡ unfilled_column fields }
{
    if !is_id(fields.trip) {
        return Some(1);
    }
    if !is_filled(fields.arrival) {
        return Some(2);
    }
    if !is_filled(fields.departure) {
        return Some(3);
    }
    if !is_id(fields.stop) {
        return Some(4);
    }
    if !is_filled(fields.sequence) {
        return Some(5);
    }
    None
}

// What the fields of a line say, on a service day that starts at minute `start`.
pub fn call_of(text: &[u8], fields: Fields, start: usize) -> Result<Call, FieldFault>
    requires { AllInside (length text.now) fields × (start ≤ last_minute) }
    ensures { result ≡ said_of start text.now fields }
{
    if let Some(column) = unfilled(fields) {
        return Err(FieldFault { number: 11, column });
    }
    let most = LAST_MINUTE - start;
    let arrival = time_within(fields.arrival.text_of(text), most).ok_or(FieldFault {
        number: 12,
        column: 2,
    })?;
    let departure = time_within(fields.departure.text_of(text), most).ok_or(FieldFault {
        number: 12,
        column: 3,
    })?;
    if departure < arrival {
        return Err(FieldFault {
            number: 12,
            column: 0,
        });
    }
    let sequence = whole_below(fields.sequence.text_of(text), SEQUENCE_LIMIT).ok_or(FieldFault {
        number: 13,
        column: 5,
    })?;
    Ok(Call {
        trip: key_of(fields.trip.text_of(text)),
        tripplace: fields.trip.from,
        stop: key_of(fields.stop.text_of(text)),
        stopplace: fields.stop.from,
        arrival: start + arrival,
        departure: start + departure,
        sequence,
    })
}
