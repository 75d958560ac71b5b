// The stack of chosen rows that a stop has in the work slice: entries of two cells, the latest departure at the bottom.
#![tactic(auto)]

ghost use Rattle.std.specs.Prelude.{◌≡◌, suc, ◌+◌, ◌-◌, ◌*◌, ◌/◌, ◌%◌, ◌≤◌, ◌<◌, length, get_or};
ghost use Rattle.timetable.specs.Limits.{most_stops};
ghost use Rattle.plan_cells.specs.Cells.{pair_cells, two_at};
ghost use Rattle.plan_stacks.specs.Stacks.{key_step, key_of, stack_start, stack_size, entry_departure, entry_row, entry_worth, with_entry, with_size, Falling, FirstOpenAt};
ghost use Rattle.plan_stacks.specs.Regions.{below, Parted};
ghost use Rattle.plan_stacks.specs.Search.{look, Narrowed, Searched};

use numbers::{cell, number};
use plan_cells::{PAIR_CELLS, SIZE_CELLS, STOP_CELLS};
use plan_rows::can_board;
use timetable::MOST_STOPS;

// An entry's first cell, its key, holds 2,048 x departure + row.
const KEY: usize = 2048;

// A stop's stack: the cell of its bottom entry, and how many entries there are.
#[derive(Clone, Copy)]
pub struct Stack {
    pub start: usize,
    pub size: usize,
}

// A chosen row as an entry says it: its row, when it departs, and what it is worth.
#[derive(Clone, Copy)]
pub struct ChosenRow {
    pub row: usize,
    pub departure: usize,
    pub worth: u32,
}

pub fn stack_of(work: &[u32], stop: usize) -> Stack
    requires { (stop < most_stops) × (pair_cells ≤ length work.now) }
    ensures { (result.start ≡ stack_start work.now stop) × (result.size ≡ stack_size work.now stop) }
{
    let size = number(work[SIZE_CELLS + stop]);
    let start = PAIR_CELLS + 2 * number(work[STOP_CELLS + stop]);
    Stack { start, size }
}

// Room for one entry more at a stop: until the regions are parted, a size counts that room.
pub fn reserve(work: &mut [u32], stop: usize)
    requires { (stop < most_stops) × (pair_cells ≤ length work.old) × (stack_size work.old stop < 4294967295) }
    ensures { work.new ≡ with_size work.old stop (stack_size work.old stop + 1) }
{
    let size = SIZE_CELLS + stop;
    work[size] += 1;
}

// A region of pairs of cells for each stop, one behind the other from pair `from` on; the stacks are empty.
pub fn part_stacks(from: usize, work: &mut [u32])
    requires { (pair_cells ≤ length work.old) × (from + below (stack_size work.old) most_stops < 4294967296) }
    ensures { Parted from work.old work.new }
{
    let mut start = cell(from);
    for stop in 0..MOST_STOPS {
        work[STOP_CELLS + stop] = start;
        start += work[SIZE_CELLS + stop];
        work[SIZE_CELLS + stop] = 0;
    }
}

// The departure of an entry, by its key.
pub fn departure_of(key: u32) -> usize
    ensures { result ≡ key / key_step }
{
    number(key) / KEY
}

// The row of an entry, by its key.
pub fn row_of(key: u32) -> usize
    ensures { result ≡ key % key_step }
{
    number(key) % KEY
}

impl Stack {
    // The first chosen row of a stack that is not empty.
    pub fn top(self, work: &[u32]) -> ChosenRow
        requires { (0 < self.size) × (self.start + 2 * self.size ≤ length work.now) }
        ensures { (result.row ≡ entry_row work.now self.start (self.size - 1))
            × (result.departure ≡ entry_departure work.now self.start (self.size - 1))
            × (result.worth ≡ entry_worth work.now self.start (self.size - 1)) }
    {
        let at = self.start + 2 * (self.size - 1);
        ChosenRow {
            row: row_of(work[at]),
            departure: departure_of(work[at]),
            worth: work[at + 1],
        }
    }

    // A chosen row goes on top of its stop's stack.
    pub fn push(self, work: &mut [u32], stop: usize, chosen: ChosenRow)
        requires { (stop < most_stops) × (pair_cells ≤ self.start) × (self.size < 4294967295)
            × (self.start + 2 * self.size + 1 < length work.old) × (key_of chosen.departure chosen.row < 4294967296) }
        ensures { work.new ≡ with_size
            (with_entry work.old self.start self.size chosen.departure chosen.row chosen.worth) stop (suc self.size) }
    {
        write_entry(work, self.start + 2 * self.size, chosen);
        work[SIZE_CELLS + stop] = cell(self.size + 1);
    }

    // A chosen row takes the place of the top one.
    pub fn replace_top(self, work: &mut [u32], chosen: ChosenRow)
        requires { (0 < self.size) × (self.start + 2 * self.size ≤ length work.old)
            × (key_of chosen.departure chosen.row < 4294967296) }
        ensures { work.new ≡ with_entry work.old self.start (self.size - 1) chosen.departure chosen.row chosen.worth }
    {
        let at = self.start + 2 * (self.size - 1);
        write_entry(work, at, chosen);
    }

    // The cell of the stack's first entry that one who stands there at `minute` can board.
    pub fn first_open(self, work: &[u32], minute: usize) -> usize
        requires { Falling work.now self.start self.size minute }
        ensures { FirstOpenAt work.now self.start self.size minute result }
    {
        let span = self.span_from_top(work, minute);
        let short = self.quarter(work, span, minute);
        self.start + 2 * self.last_open(work, short, minute)
    }

    // In steps that double, from the top: most rides land soon, where the next rows leave. `while`: no index is counted.
    fn span_from_top(self, work: &[u32], minute: usize) -> Span
        requires { Falling work.now self.start self.size minute }
        ensures { Narrowed work.now self.start self.size minute result.low result.left }
    {
        let mut high = self.size;
        let mut step = 1;
        while step < high {
            let low = high - step;
            if open_at(work, self.start + 2 * low, minute) == 1 {
                return Span { low, left: step };
            }
            high = low;
            step *= 2;
        }
        Span { low: 0, left: high }
    }

    // By quarters, as long as a span has four entries: three looks at once and no branch on what they see. `while`: no index is counted.
    fn quarter(self, work: &[u32], span: Span, minute: usize) -> Span
        requires { Searched work.now self.start minute span.low span.left }
        ensures { Narrowed work.now self.start (span.low + span.left) minute result.low result.left × (result.left < 4) }
    {
        let start = self.start;
        let mut low = span.low;
        let mut left = span.left;
        while 4 <= left {
            let step = left / 4;
            left -= 3 * step;
            low += step
                * (open_at(work, start + 2 * (low + step), minute)
                    + open_at(work, start + 2 * (low + 2 * step), minute)
                    + open_at(work, start + 2 * (low + 3 * step), minute));
        }
        Span { low, left }
    }

    // The last entry that can be boarded in a span of at most three.
    fn last_open(self, work: &[u32], span: Span, minute: usize) -> usize
        requires { Searched work.now self.start minute span.low span.left × (span.left < 4) }
        ensures { Narrowed work.now self.start (span.low + span.left) minute result 1 }
    {
        let low = span.low;
        let at = self.start + 2 * low;
        if span.left == 1 {
            return low;
        }
        if span.left == 2 {
            return low + open_at(work, at + 2, minute);
        }
        low + open_at(work, at + 2, minute) + open_at(work, at + 4, minute)
    }
}

// Entries of a stack, `left` of them from place `low` on: the highest that can be boarded is among them.
#[derive(Clone, Copy)]
struct Span {
    low: usize,
    left: usize,
}

// The entry of a chosen row at cell `at`.
fn write_entry(work: &mut [u32], at: usize, chosen: ChosenRow)
    requires { (key_of chosen.departure chosen.row < 4294967296) × (at + 1 < length work.old) }
    ensures { work.new ≡ two_at work.old at (key_of chosen.departure chosen.row) chosen.worth }
{
    work[at] = cell(KEY * chosen.departure + chosen.row);
    work[at + 1] = chosen.worth;
}

// 1 if the entry at cell `at` can be boarded at `minute`, else 0: a step's factor, where a bool would be a branch. Keys are compared: no division.
fn open_at(work: &[u32], at: usize, minute: usize) -> usize
    requires { (at < length work.now) × (minute < 4294967296) }
    ensures { result ≡ look minute (get_or work.now at 0 / key_step) }
{
    usize::from(can_board(number(work[at]), KEY * minute))
}
