// Document 01, "Numbers returned on refusal": the check of a sailing file, its sections and then row by row.
#![tactic(auto)]

ghost use Rattle.std.specs.Prelude.{◌<◌, ◌&&◌, [], ◌≡◌, ◌+◌, ◌*◌, ◌≤◌, leb, length};
ghost use Rattle.timetable.specs.Limits.{most_rows};
ghost use Rattle.timetable.specs.Rows.{last_of_trip, follows as follows_row, rows_verdict};
ghost use Rattle.file_layout.specs.Format.{Readable};
ghost use Rattle.file_layout.specs.Decode.{row_at, rows_from};
ghost use Rattle.file_layout.specs.Small.{SmallRow};
ghost use Rattle.file_layout.specs.Check.{checked_as, checked};
ghost use Rattle.file_sections.specs.ReadBy.{read_by};
ghost use Rattle.file_check.specs.Behind.{rows_behind, found_behind};

use file_layout::{Format, Trailer};
use timetable::{MOST_TRIPS, Ranges, Refusal, Row};

// The nearest earlier row of a trip and its number.
#[derive(Clone, Copy)]
pub struct Found {
    pub row: Row,
    pub place: usize,
}

// Rows that lie in a file: `count` of `width` bytes each, the first at byte `start`.
#[derive(Clone, Copy)]
pub struct RowBytes<'a> {
    pub file: &'a [u8],
    pub start: usize,
    pub width: usize,
    pub count: usize,
    pub ghost holds_row: { 12 ≤ width },
    pub ghost inside: { start + width * count ≤ length file.now },
}

// The check of a file of version 1.
pub fn check(file: &[u8]) -> Result<Trailer, Refusal<usize>>
    ensures { result ≡ checked file.now }
{
    check_as(file, file_layout::VERSION_ONE)
}

// The check of a file of a version: trailer and sections, then the rows.
pub fn check_as(file: &[u8], f: Format) -> Result<Trailer, Refusal<usize>>
    requires { Readable f }
    ensures { result ≡ checked_as f file.now }
{
    let trailer = file_sections::read_sections(file, f)?;
    let ranges = Ranges {
        stops: trailer.stops,
        classes: trailer.classes,
        lastminute: f.lastminute,
    };
    let rows = RowBytes {
        file,
        start: trailer.rowstart,
        width: f.width,
        count: trailer.rows,
    };
    rows.check(ranges)?;
    Ok(trailer)
}

impl RowBytes<'_> {
    // The row of that number.
    fn nth(&self, place: usize) -> Row
        requires { place < self.now.count }
        ensures { (result ≡ row_at self.now.file.now (self.now.start + self.now.width * place)) × SmallRow result }
    {
        file_layout::row_at(self.file, self.start + self.width * place)
    }

    // Row by row, 4 before 5. `seen` has, for each trip, the number of rows up to its last one so far.
    fn check(&self, ranges: Ranges) -> Result<(), Refusal<usize>>
        requires { self.now.count ≤ most_rows }
        ensures { result ≡ read_by tt (rows_verdict ranges [] 0 (rows_from self.now.width self.now.file.now self.now.start self.now.count)) }
    {
        let mut seen = [0u16; MOST_TRIPS];
        let mut departure = 0;
        for i in 0..self.count {
            let row = self.nth(i);
            if !timetable::own_rule(row, ranges) {
                return Err(Refusal {
                    number: 4,
                    place: i,
                });
            }
            let trip = row.trip;
            if !self.in_order(usize::from(seen[trip]), departure, row) {
                return Err(Refusal {
                    number: 5,
                    place: i,
                });
            }
            departure = row.departure;
            seen[trip] = (i + 1) as u16;
        }
        Ok(())
    }

    // The rule of departures, then that of the trip, whose earlier rows are among the first `count`.
    fn in_order(&self, count: usize, departure: usize, row: Row) -> bool
        requires { count ≤ self.now.count }
        ensures { result ≡ (leb departure row.departure && follows_row (last_of_trip row.trip (rows_behind self.now.width self.now.file.now self.now.start count)) row) }
    {
        if !timetable::departure_rule(departure, row) {
            return false;
        }
        let Some(previous) = self.look_back(count, row.trip) else {
            return true;
        };
        timetable::follows(previous.row, row)
    }

    // The nearest row of `trip` among the first `count`, found by looking back and stopping at the first.
    #[tactic(auto, using(crate::proofs::Back::found_on, crate::proofs::Back::found_end))]
    pub fn look_back(&self, count: usize, trip: usize) -> Option<Found>
        requires { count ≤ self.now.count }
        ensures { result ≡ found_behind trip self.now.width self.now.file.now self.now.start count }
    {
        for place in (0..count).rev() {
            let row = self.nth(place);
            if row.trip == trip {
                return Some(Found { row, place });
            }
        }
        None
    }
}
