// Document 01, "Numbers returned on refusal": the first step of the check, the trailer and the class blocks.
#![tactic(auto)]

ghost use Rattle.std.specs.Prelude.{◌≡◌, ◌&&◌, ◌+◌, ◌-◌, ◌*◌, ◌≤◌, ◌<◌, leb, eqb, length};
ghost use Rattle.timetable.specs.Limits.{fewest_stops, most_stops, most_rows, fewest_classes, most_classes};
ghost use Rattle.timetable.specs.Classes.{sum, shares_rule};
ghost use Rattle.file_layout.specs.Format.{Readable};
ghost use Rattle.numbers.specs.Numbers.{u16_at};
ghost use Rattle.file_layout.specs.Decode.{shares_from, table_at};
ghost use Rattle.file_layout.specs.Small.{SmallTrailer};
ghost use Rattle.file_layout.specs.Check.{trailer_rule, sections_join};
ghost use Rattle.file_sections.specs.SectionsRead.{sections_read};
ghost use Rattle.file_sections.specs.Blocks.{block_read, blocks_read};

use file_layout::{Format, Trailer, trailer_at};
use numbers::u16_at;
use timetable::{
    FEWEST_CLASSES, FEWEST_STOPS, MOST_CLASSES, MOST_ROWS, MOST_STOPS, Refusal, SHARE_TOTAL,
};

// Where a section of the file starts and ends.
#[derive(Clone, Copy)]
struct Section {
    start: usize,
    end: usize,
}

// The class blocks of a file of a version, none of which may run past byte `end`.
#[derive(Clone, Copy)]
pub struct BlockBytes<'a> {
    pub file: &'a [u8],
    pub f: Format,
    pub end: usize,
    pub ghost inside: { end ≤ length file.now },
}

// Refusal 1: the length, the version, S, n or K is out of its range.
const OUTSIDE: Refusal<usize> = Refusal {
    number: 1,
    place: 0,
};

// Refusal 2: the sections do not join, or a class block runs past them.
const UNJOINED: Refusal<usize> = Refusal {
    number: 2,
    place: 0,
};

// Length, version, S, n and K; then the class blocks; then the joining of the sections.
pub fn read_sections(file: &[u8], f: Format) -> Result<Trailer, Refusal<usize>>
    requires { Readable f }
    ensures { result ≡ sections_read f file.now }
{
    let size = file.len();
    if !length_in_range(f, size) {
        return Err(OUTSIDE);
    }
    let end = size - f.trailer;
    let trailer = trailer_at(file, end);
    if !in_ranges(f, trailer) {
        return Err(OUTSIDE);
    }
    let blocks = BlockBytes { file, f, end };
    let at = blocks.class_blocks(trailer.tablestart, trailer.classes)?;
    if !joined(f, trailer, at, end) {
        return Err(UNJOINED);
    }
    Ok(trailer)
}

// The file length is in its range.
pub fn length_in_range(f: Format, size: usize) -> bool
    ensures { result ≡ (leb f.fewestbytes size && leb size f.mostbytes) }
{
    f.fewestbytes <= size && size <= f.mostbytes
}

// Version, S, n and K are in their ranges.
#[tactic(auto, unfolding(file_layout::specs::Check::trailer_rule))]
fn in_ranges(f: Format, trailer: Trailer) -> bool
    ensures { result ≡ trailer_rule f trailer }
{
    version_rule(f, trailer) && stops_rule(trailer) && rows_rule(trailer) && classes_rule(trailer)
}

// The trailer is of the version.
pub fn version_rule(f: Format, trailer: Trailer) -> bool
    ensures { result ≡ eqb trailer.version f.version }
{
    trailer.version == f.version
}

// S is 2 to 200.
pub fn stops_rule(trailer: Trailer) -> bool
    ensures { result ≡ (leb fewest_stops trailer.stops && leb trailer.stops most_stops) }
{
    FEWEST_STOPS <= trailer.stops && trailer.stops <= MOST_STOPS
}

// n is 0 to 2,000.
pub fn rows_rule(trailer: Trailer) -> bool
    ensures { result ≡ leb trailer.rows most_rows }
{
    trailer.rows <= MOST_ROWS
}

// K is 1 to 16.
fn classes_rule(trailer: Trailer) -> bool
    ensures { result ≡ (leb fewest_classes trailer.classes && leb trailer.classes most_classes) }
{
    FEWEST_CLASSES <= trailer.classes && trailer.classes <= MOST_CLASSES
}

impl BlockBytes<'_> {
    // Class by class: `count` blocks from `start` on, and where the last one ends.
    pub fn class_blocks(&self, start: usize, count: usize) -> Result<usize, Refusal<usize>>
        ensures { result ≡ blocks_read self.now.f self.now.file.now self.now.end 0 start count }
    {
        let mut at = start;
        for class in 0..count {
            at = self.class_block(class, at)?;
        }
        Ok(at)
    }

    // One class block: M's two bytes fit, M, the shares fit, their sum and the last; and where it ends.
    #[tactic(auto, unfolding(crate::specs::Blocks::block_read, file_layout::specs::Check::class_verdict, file_layout::specs::Decode::block_end))]
    fn class_block(&self, class: usize, at: usize) -> Result<usize, Refusal<usize>>
        ensures { result ≡ block_read self.now.f self.now.file.now self.now.end class at }
    {
        let broken = Refusal {
            number: 3,
            place: class,
        };
        let room = self.end.saturating_sub(at);
        if room < 2 {
            return Err(UNJOINED);
        }
        let delay = u16_at(self.file, at);
        if !delay_rule(self.f, delay) {
            return Err(broken);
        }
        if room < 4 + 2 * delay {
            return Err(UNJOINED);
        }
        if !shares_keep(self.file, at, delay) {
            return Err(broken);
        }
        Ok(at + 4 + 2 * delay)
    }
}

// M is not above the version's longest delay.
pub fn delay_rule(f: Format, delay: usize) -> bool
    ensures { result ≡ leb delay f.delay }
{
    delay <= f.delay
}

// The shares of the block at `at`, whose maximum delay is `delay`: their sum and the last.
#[tactic(auto, unfolding(timetable::specs::Classes::shares_rule), using(crate::proofs::Shares::table_sum, crate::proofs::Shares::table_last))]
fn shares_keep(file: &[u8], at: usize, delay: usize) -> bool
    requires { (at + 4 + 2 * delay ≤ length file.now) × (delay < 65536) × (delay ≡ u16_at file.now at) }
    ensures { result ≡ shares_rule (table_at file.now at) }
{
    shares_sum(file, at + 2, delay + 1) == SHARE_TOTAL && 1 <= u16_at(file, at + 2 + 2 * delay)
}

// The sum of the `count` shares from `first` on.
#[tactic(auto, using(crate::proofs::Shares::sum_on, crate::proofs::Shares::sum_end))]
pub fn shares_sum(file: &[u8], first: usize, count: usize) -> usize
    requires { (first + 2 * count ≤ length file.now) × (count ≤ 65536) }
    ensures { result ≡ sum (shares_from file.now first count) }
{
    let mut total = 0;
    for i in 0..count {
        total += u16_at(file, first + 2 * i);
    }
    total
}

// The sections of rows and of tables join in either order, the tables ending at `at`.
#[tactic(auto, unfolding(file_layout::specs::Check::sections_join))]
fn joined(f: Format, trailer: Trailer, at: usize, end: usize) -> bool
    requires { (f.width < 65536) × SmallTrailer trailer }
    ensures { result ≡ sections_join trailer.rowstart (trailer.rowstart + f.width * trailer.rows) trailer.tablestart at end }
{
    let rows = Section {
        start: trailer.rowstart,
        end: rows_end(f, trailer),
    };
    let tables = Section {
        start: trailer.tablestart,
        end: at,
    };
    in_order(rows, tables, end) || in_order(tables, rows, end)
}

// The byte where the rows end.
pub fn rows_end(f: Format, trailer: Trailer) -> usize
    requires { (f.width < 65536) × SmallTrailer trailer }
    ensures { result ≡ trailer.rowstart + f.width * trailer.rows }
{
    trailer.rowstart + f.width * trailer.rows
}

// The first section starts at 0, the second where that one ends, and the second ends at `end`.
fn in_order(first: Section, second: Section, end: usize) -> bool
    ensures { result ≡ (eqb first.start 0 && eqb second.start first.end && eqb second.end end) }
{
    first.start == 0 && second.start == first.end && second.end == end
}
