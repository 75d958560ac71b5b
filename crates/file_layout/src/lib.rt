// Document 01, "The sailing file": where the numbers of a file stand.
#![tactic(auto)]

ghost use Rattle.std.specs.Prelude.{◌≡◌, ◌+◌, ◌<◌, length};
ghost use Rattle.file_layout.specs.Decode.{trailer_at, row_at};
ghost use Rattle.file_layout.specs.Small.{SmallTrailer, SmallRow};

use numbers::{u16_at, u32_at};
use timetable::Row;

// What a version of the file fixes: its number, the bytes of a row and of the trailer, the file
// lengths, the last minute and the longest delay.
#[derive(Clone, Copy)]
pub struct Format {
    pub version: usize,
    pub width: usize,
    pub trailer: usize,
    pub fewestbytes: usize,
    pub mostbytes: usize,
    pub lastminute: usize,
    pub delay: usize,
}

// Version 1 of the file.
pub const VERSION_ONE: Format = Format {
    version: 1,
    width: 12,
    trailer: 16,
    fewestbytes: 20,
    mostbytes: 27920,
    lastminute: 10079,
    delay: 120,
};

// The trailer's numbers.
#[derive(Clone, Copy)]
pub struct Trailer {
    pub version: usize,
    pub stops: usize,
    pub rows: usize,
    pub classes: usize,
    pub rowstart: usize,
    pub tablestart: usize,
}

// The trailer's numbers, the trailer at `at`.
#[tactic(auto, unfolding(crate::specs::Decode::trailer_at))]
pub fn trailer_at(file: &[u8], at: usize) -> Trailer
    requires { at + 15 < length file.now }
    ensures { (result ≡ trailer_at file.now at) × SmallTrailer result }
{
    Trailer {
        version: u16_at(file, at),
        stops: u16_at(file, at + 2),
        rows: u16_at(file, at + 4),
        classes: u16_at(file, at + 6),
        rowstart: u32_at(file, at + 8),
        tablestart: u32_at(file, at + 12),
    }
}

// The row whose bytes start at `at`.
#[tactic(auto, unfolding(crate::specs::Decode::row_at))]
pub fn row_at(file: &[u8], at: usize) -> Row
    requires { at + 11 < length file.now }
    ensures { (result ≡ row_at file.now at) × SmallRow result }
{
    Row {
        board: u16_at(file, at),
        land: u16_at(file, at + 2),
        departure: u16_at(file, at + 4),
        arrival: u16_at(file, at + 6),
        trip: u16_at(file, at + 8),
        class: u16_at(file, at + 10),
    }
}
