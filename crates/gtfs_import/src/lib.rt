// Document 02, E2: the bus partner's `stop_times.txt` as a sailing file.
#![tactic(auto)]

ghost use Rattle.std.specs.Prelude.{true, [], ◌∷◌, ◌≡◌, ◌+◌, ◌*◌, ◌≤◌, length};
ghost use Rattle.std.proofs.lemmas.List.Edits.{sets};
ghost use Rattle.timetable.specs.Limits.{most_rows};
ghost use Rattle.file_layout.specs.Check.{checked};
ghost use Rattle.file_layout.specs.Format.{version_one};
ghost use Rattle.file_encoding.specs.Encode.{bytes_of_trailer, tables_bytes};
ghost use Rattle.file_writing.specs.Ends.{never_late, on_time_trailer};
ghost use Rattle.gtfs_stop_time.specs.StopTime.{day_start, last_minute};
ghost use Rattle.gtfs_calls.specs.Reading.{stop_times};
ghost use Rattle.gtfs_import.specs.FaultPlace.{place_for};
ghost use Rattle.gtfs_import.specs.Import.{by_check, by_reading, day_rule, import_outcome};
ghost use Rattle.gtfs_import.specs.Named.{names_outcome};
ghost use Rattle.gtfs_import.specs.Room.{file_room};

use file_check::check;
use file_layout::Trailer;
use file_writing::{put_never_late, put_trailer};
use gtfs_stop_times::{Wanted, stop_times};
use timetable::Refusal;

// A file of so many bytes with this trailer was written.
#[derive(Clone, Copy)]
pub struct Written {
    pub trailer: Trailer,
    pub bytes: usize,
}

// The line of a text's first fault and the column that it is in, 0 for the line as a whole.
#[derive(Clone, Copy)]
pub struct Place {
    pub line: usize,
    pub column: usize,
}

// Why there are no names: a refusal by its number, or too little room for the longest such text.
#[derive(Clone, Copy)]
pub enum Unnamed {
    Refused { number: usize },
    NoRoom,
}

// Room for the names of the most stops and trips.
pub const NAMES_ROOM: usize = 52800;

// Service days are numbered 1 to 7.
const FIRST_DAY: usize = 1;

const LAST_DAY: usize = 7;

const MINUTES_A_DAY: usize = 1440;

// The rows, their one table and the trailer of the longest file of neighbouring calls.
const FILE_ROOM: usize = 24020;

// Writes the sailing file of a service day from the bytes of `stop_times.txt`; a refusal leaves `out` as it was.
pub fn import_stop_times(text: &[u8], day: usize, out: &mut [u8]) -> Result<Written, Refusal<usize>>
    ensures { (result ≡ (import_outcome text.now day out.old).answer)
        × (out.new ≡ (import_outcome text.now day out.old).out) }
{
    if !is_service_day(day) {
        return Err(Refusal {
            number: 6,
            place: 0,
        });
    }
    if out.len() < file_layout::VERSION_ONE.mostbytes {
        return Err(Refusal {
            number: 7,
            place: 0,
        });
    }
    import_from(text, day_start(day), out)
}

// Where the first fault of the text is, if it has one.
pub fn fault_place(text: &[u8], day: usize) -> Option<Place>
    ensures { result ≡ place_for text.now day }
{
    if !is_service_day(day) {
        return None;
    }
    let mut file = file_room();
    match stop_times(text, day_start(day), Wanted::Rows, &mut file) {
        Ok(_) => None,
        Err(fault) => Some(Place {
            line: fault.line,
            column: fault.column,
        }),
    }
}

// Writes the ids by number: a line for each stop, then one for each trip; where they end. What is no text leaves `out` as it was.
pub fn names_of(text: &[u8], day: usize, out: &mut [u8]) -> Result<usize, Unnamed>
    ensures { (result ≡ (names_outcome text.now day out.old).answer)
        × (out.new ≡ (names_outcome text.now day out.old).out) }
{
    if out.len() < NAMES_ROOM {
        return Err(Unnamed::NoRoom);
    }
    if !is_service_day(day) {
        return Err(Unnamed::Refused { number: 6 });
    }
    match stop_times(text, day_start(day), Wanted::Names, out) {
        Ok(listed) => Ok(listed.bytes),
        Err(fault) => Err(Unnamed::Refused {
            number: fault.number,
        }),
    }
}

#[tactic(auto, unfolding(crate::specs::Import::day_rule))]
fn is_service_day(day: usize) -> bool
    ensures { result ≡ day_rule day }
{
    FIRST_DAY <= day && day <= LAST_DAY
}

// The minute at which a service day starts.
#[tactic(auto, using(crate::proofs::Days::day_kept, crate::proofs::Days::start_kept))]
fn day_start(day: usize) -> usize
    requires { day_rule day ≡ true }
    ensures { (result ≡ day_start day) × (result ≤ last_minute) }
{
    MINUTES_A_DAY * (day - FIRST_DAY)
}

fn file_room() -> [u8; FILE_ROOM]
    ensures { length result ≡ file_room }
{
    [0u8; FILE_ROOM]
}

// What the text says of a service day that starts at minute `start`.
fn import_from(text: &[u8], start: usize, out: &mut [u8]) -> Result<Written, Refusal<usize>>
    requires { (start ≤ last_minute) × (version_one.mostbytes ≤ length out.old) }
    ensures { (result ≡ (by_reading (stop_times start text.now) out.old).answer)
        × (out.new ≡ (by_reading (stop_times start text.now) out.old).out) }
{
    let mut file = file_room();
    match stop_times(text, start, Wanted::Rows, &mut file) {
        Ok(listed) => {
            let end = put_ends(listed.counts.stops, listed.counts.rows, &mut file);
            hand_over(&file[..end], out)
        }
        Err(fault) => Err(Refusal {
            number: fault.number,
            place: 0,
        }),
    }
}

// The table and the trailer behind so many rows; where the file ends.
fn put_ends(stops: usize, rows: usize, file: &mut [u8]) -> usize
    requires { (rows ≤ most_rows) × (12 * rows + 20 ≤ length file.old) }
    ensures { (result ≡ 12 * rows + 20)
        × (file.new ≡ sets (sets file.old (12 * rows) (tables_bytes (never_late ∷ [])))
        (12 * rows + 4) (bytes_of_trailer (on_time_trailer stops rows))) }
{
    let at = 12 * rows;
    put_never_late(file, at);
    let trailer = Trailer {
        version: 1,
        stops,
        rows,
        classes: 1,
        rowstart: 0,
        tablestart: at,
    };
    put_trailer(file, at + 4, trailer);
    at + 20
}

// A finished file goes to `out` only if the check finds no fault.
fn hand_over(file: &[u8], out: &mut [u8]) -> Result<Written, Refusal<usize>>
    requires { length file.now ≤ length out.old }
    ensures { (result ≡ (by_check file.now out.old (checked file.now)).answer)
        × (out.new ≡ (by_check file.now out.old (checked file.now)).out) }
{
    let trailer = check(file)?;
    let bytes = file.len();
    out[..bytes].copy_from_slice(file);
    Ok(Written { trailer, bytes })
}
