// The work slice: what each cell holds.
//
// | cell | holds, while .. | why |
// |---|---|---|
// | 0 .. 1,999 | a trip: 1 once the journey is aboard (plan_earliest); its next row, n for none (plan_scan). A row: 1 once it is wanted (plan_extract) | trips need 2,000 cells whatever n is; each use fills them anew; n is at most 2,000, so the marks fit |
// | 2,000 .. 2,199 | a stop: its ready minute (plan_earliest); where its stack starts, counted in pairs (plan_stacks) | 200 stops |
// | 2,200 .. 2,399 | a stop: the entries on its stack | |
// | 2,400 + 2i | pair i, for row i up to n: its worth, its leaving row. Pair n holds NONE | a trip with no next row reads pair n, with no test |
// | 2,402 + 2n + 2e | pair n + 1 + e, a stack's entry: 2,048 x departure + row, its worth | one region a stop, sized by its rows: no links to follow, and a search by quarters |
//
// In all 4n + 2,402 cells. Nothing is sized by a class's maximum.
#![tactic(auto)]

ghost use Rattle.std.specs.Prelude.{◌≡◌, ◌+◌, ◌≤◌, ◌<◌, length};
ghost use Rattle.plan_cells.specs.Cells.{filled};

// The first cell of each region.
pub const TRIP_CELLS: usize = 0;

pub const STOP_CELLS: usize = 2000;

pub const SIZE_CELLS: usize = 2200;

pub const PAIR_CELLS: usize = 2400;

// No worth, or no minute: above all that there are.
pub const NONE: u32 = 0xffff_ffff;

// `count` cells from `at` on become `value`: the slice's fill, told of the whole slice, as the planner's clauses ask.
pub fn fill(work: &mut [u32], at: usize, count: usize, value: u32)
    requires { at + count ≤ length work.old }
    ensures { work.new ≡ filled work.old at count value }
{
    work[at..at + count].fill(value);
}
