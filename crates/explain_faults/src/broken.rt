// Reading a file that may be broken anywhere: what is not there reads as 0.
ghost use Rattle.std.specs.Prelude.{◌≡◌, ◌-◌, ◌<◌, length};
ghost use Rattle.file_layout.specs.Format.{Readable};
ghost use Rattle.file_layout.specs.Small.{SmallTrailer, SmallRow};
ghost use Rattle.explain_faults.specs.Broken.{row_in};

use file_check::RowBytes;
use file_layout::{Format, Trailer};
use file_sections::{BlockBytes, shares_sum};
use timetable::Row;

// The trailer and the row that are not there.
const NO_TRAILER: Trailer = Trailer {
    version: 0,
    stops: 0,
    rows: 0,
    classes: 0,
    rowstart: 0,
    tablestart: 0,
};

const NO_ROW: Row = Row {
    board: 0,
    land: 0,
    departure: 0,
    arrival: 0,
    trip: 0,
    class: 0,
};

// The row of that number, the rows starting at `start`.
#[tactic(auto, unfolding(crate::specs::Broken::row_in))]
pub fn row_in(file: &[u8], f: Format, start: usize, place: usize) -> Row
    requires { Readable f }
    ensures { (result ≡ row_in f.width file.now start place) × SmallRow result }
{
    if file.len().saturating_sub(start) / f.width <= place {
        return NO_ROW;
    }
    file_layout::row_at(file, start + f.width * place)
}

// A class by its number, and the byte where its block starts.
#[derive(Clone, Copy)]
pub struct Block {
    pub class: usize,
    pub at: usize,
}

// A row of the file with its number.
#[derive(Clone, Copy)]
pub struct NumberedRow {
    pub place: usize,
    pub row: Row,
    pub ghost small: { SmallRow row },
}

// A file of a version that may be broken anywhere, and the numbers of its trailer.
#[derive(Clone, Copy)]
pub struct BrokenFile<'a> {
    pub bytes: &'a [u8],
    pub f: Format,
    pub trailer: Trailer,
    pub ghost readable: { Readable f },
    pub ghost small: { SmallTrailer trailer },
}

impl<'a> BrokenFile<'a> {
    pub fn of(bytes: &'a [u8], f: Format) -> BrokenFile<'a>
        requires { Readable f }
        ensures { result.f ≡ f }
    {
        let trailer = if bytes.len() < f.trailer {
            NO_TRAILER
        } else {
            file_layout::trailer_at(bytes, bytes.len() - f.trailer)
        };
        BrokenFile { bytes, f, trailer }
    }

    // Where the trailer starts.
    pub fn trailer_start(&self) -> usize
        ensures { result ≡ length self.now.bytes.now - self.now.f.trailer }
    {
        self.bytes.len().saturating_sub(self.f.trailer)
    }

    // Where the class blocks end, or the first in which the check finds a fault.
    pub fn tables_end(&self) -> Result<usize, Block> {
        let mut at = self.trailer.tablestart;
        for class in 0..self.trailer.classes {
            let Some(next) = self.blocks_end(at, 1) else {
                return Err(Block { class, at });
            };
            at = next;
        }
        Ok(at)
    }

    // Where `count` class blocks end, the first of them at `at`, if the check finds no fault in them.
    pub fn blocks_end(&self, at: usize, count: usize) -> Option<usize> {
        let blocks = BlockBytes {
            file: self.bytes,
            f: self.f,
            end: self.trailer_start(),
        };
        blocks.class_blocks(at, count).ok()
    }

    // The number of two bytes at `at`.
    pub fn number_at(&self, at: usize) -> usize
        ensures { result < 65536 }
    {
        if self.bytes.len().saturating_sub(at) < 2 {
            return 0;
        }
        numbers::u16_at(self.bytes, at)
    }

    // The sum of the shares of the class block at `at`, whose maximum delay is `delay`.
    pub fn shares_in(&self, at: usize, delay: usize) -> usize
        requires { delay < 65536 }
    {
        if self.bytes.len().saturating_sub(at) < 4 + 2 * delay {
            return 0;
        }
        shares_sum(self.bytes, at + 2, delay + 1)
    }

    // The row of that number.
    pub fn row(&self, place: usize) -> NumberedRow {
        NumberedRow {
            place,
            row: row_in(self.bytes, self.f, self.trailer.rowstart, place),
        }
    }

    // The nearest row of its trip ahead of that row; none where not all rows ahead are there.
    pub fn last_of_trip(&self, numbered: NumberedRow) -> Option<NumberedRow> {
        let start = self.trailer.rowstart;
        let behind = self.bytes.len().checked_sub(start)?;
        if behind / self.f.width < numbered.place {
            return None;
        }
        let rows = RowBytes {
            file: self.bytes,
            start,
            width: self.f.width,
            count: numbered.place,
        };
        let found = rows.look_back(numbered.place, numbered.row.trip)?;
        Some(self.row(found.place))
    }
}
