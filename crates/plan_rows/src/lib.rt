// A sound file's rows by their numbers, and when one can board.
#![tactic(auto)]

ghost use Rattle.std.specs.Prelude.{◌≡◌, ◌≤◌, ◌<◌, leb};
ghost use Rattle.timetable.specs.Timetable.{row_of};
ghost use Rattle.file_layout.specs.Small.{SmallRow};
ghost use Rattle.query.specs.Query.{most_gate};
ghost use Rattle.plans.specs.Rides.{ready as ready_from};
ghost use Rattle.plan_rows.specs.Reading.{Cut};
ghost use Rattle.plan_rows.specs.Sailings.{rows_of};

mod sailings;

use file_layout::row_at;
pub use sailings::Sailings;
use timetable::Row;

// Where a sound file's sections stand: how many rows, the first one's byte, the bytes of a row; how
// many classes, the first one's byte.
#[derive(Clone, Copy)]
pub struct SectionPlaces {
    pub rows: usize,
    pub rowstart: usize,
    pub width: usize,
    pub classes: usize,
    pub tablestart: usize,
}

// A class's block in the lent array of tables: its maximum delay M, its expected delay in ticks,
// then the share of landings at most 0, 1, .. M minutes late.
pub const BLOCK: usize = 256;

pub const MAX_DELAY: usize = 0;

pub const EXPECTED: usize = 1;

pub const SHARES: usize = 2;

impl<'a> Sailings<'a> {
    // Row number `i`.
    pub fn nth_row(&self, i: usize) -> Row
        requires { i < self.now.places.rows }
        ensures { (result ≡ row_of (rows_of self.now) i) × SmallRow result }
    {
        let s = self.places;
        row_at(self.file, s.rowstart + s.width * i)
    }

    // How many rows depart before `minute`: they stand ahead of all others.
    pub fn rows_before(&self, minute: usize) -> usize
        ensures { Cut (rows_of self.now) minute result }
    {
        // By halves: the rows are bytes of a file, and `partition_point` is a slice's.
        let mut low = 0;
        let mut high = self.places.rows;
        while low < high {
            let middle = low + (high - low) / 2;
            if can_board(self.nth_row(middle).departure, minute) {
                high = middle;
            } else {
                low = middle + 1;
            }
        }
        low
    }
}

// When one who is at a stop from `minute` on is ready to board there.
pub fn ready(gate: usize, minute: usize) -> usize
    requires { (gate ≤ most_gate) × (minute < 4294967296) }
    ensures { result ≡ ready_from gate minute }
{
    minute + gate
}

// One who is ready at the stop at `minute` can board what departs there at `departure`.
pub fn can_board(departure: usize, minute: usize) -> bool
    ensures { result ≡ leb minute departure }
{
    minute <= departure
}
