// A sound file's delay tables, as cumulative shares in lent cells.
#![tactic(auto)]

ghost use Rattle.std.specs.Prelude.{◌≡◌, suc, ◌+◌, ◌<◌, length};
ghost use Rattle.timetable.specs.Limits.{most_classes};
ghost use Rattle.file_layout.specs.Decode.{shares_from, table_at, block_end};
ghost use Rattle.plans.specs.Worth.{weigh};
ghost use Rattle.plan_cells.specs.Outside.{SameOutside};
ghost use Rattle.plan_rows.specs.Reading.{table_cells, tables_in, block_cell, BlocksStand, BlockHeld, TablesHeld};
ghost use Rattle.plan_shares.specs.Summed.{BlockStands, SharesStand, Summed};

use numbers::{cell, u16_at};
use plan_rows::{BLOCK, EXPECTED, MAX_DELAY, SHARES, SectionPlaces};

// Each class's block of cells, from its class block in the file.
pub fn read_tables(file: &[u8], s: SectionPlaces, tables: &mut [u32])
    requires { BlocksStand file.now s × (length tables.old ≡ table_cells) }
    ensures { TablesHeld tables.new (tables_in file.now s) }
{
    let mut block = s.tablestart;
    for k in 0..s.classes {
        block = read_table(file, block, k, tables);
    }
}

// One class block at byte `at`, into the cells of class `k`; the byte where it ends.
#[tactic(auto, unfolding(file_layout::specs::Decode::block_end))]
fn read_table(file: &[u8], at: usize, k: usize, tables: &mut [u32]) -> usize
    requires { BlockStands file.now at × (k < most_classes) × (length tables.old ≡ table_cells) }
    ensures { (result ≡ block_end file.now at) × BlockHeld tables.new k (table_at file.now at)
        × SameOutside (block_cell k) (block_cell (suc k)) tables.old tables.new }
{
    let maximum = u16_at(file, at);
    let into = BLOCK * k;
    let late = read_shares(file, at + 2, maximum, into + SHARES, tables);
    tables[into + MAX_DELAY] = cell(maximum);
    tables[into + EXPECTED] = cell(late.div_ceil(16));
    at + 4 + 2 * maximum
}

// The cumulative shares of delays 0 to `maximum`, from byte `at` on, into the cells from `into` on; the
// sum of delay x share.
fn read_shares(file: &[u8], at: usize, maximum: usize, into: usize, tables: &mut [u32]) -> usize
    requires { SharesStand file.now at maximum × (into + maximum < length tables.old) }
    ensures { (result ≡ weigh (shares_from file.now at (suc maximum)) 0 (λ v. v))
        × Summed tables.old tables.new into (shares_from file.now at (suc maximum)) (suc maximum) }
{
    let mut total = 0;
    let mut late = 0;
    for minute in 0..maximum + 1 {
        let share = u16_at(file, at + 2 * minute);
        total += share;
        late += share * minute;
        tables[into + minute] = cell(total);
    }
    late
}
