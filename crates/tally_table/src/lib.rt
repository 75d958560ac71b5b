// Document 02, E4: the delay table of a class, made of its tally.
#![tactic(auto)]

ghost use Rattle.std.specs.Prelude.{◌≡◌, ◌-◌, length};
ghost use Rattle.numbers.specs.Over.{over};
ghost use Rattle.file_layout.specs.Format.{version_one};
ghost use Rattle.delay_tables.specs.Rising.{shares_of_cumulative};
ghost use Rattle.tally_table.specs.Table.{greatest_late, cumulative_shares, share_of};
ghost use Rattle.tally_table.specs.Outcome.{table_outcome};
ghost use Rattle.tally_table.specs.Fits.{TableFits, SharesFit, ShareFits};

use file_layout::{Format, VERSION_ONE};
use numbers::{cell, number};
use tally::{COUNTS, counts_rule};
use timetable::{Refusal, SHARE_TOTAL};

// A table that was made: its maximum delay, how many landings it rests on, and how many stand apart.
#[derive(Clone, Copy)]
pub struct Table {
    pub delay: usize,
    pub landings: usize,
    pub apart: usize,
}

// The most shares of a table of version 1.
pub const SHARES: usize = 121;

// A reciprocal of so many landings counts 2^44ths, so that a share of 4,096ths is counted in 2^32nds.
const SCALE: usize = 17592186044416;

const SCALE_OF_SHARES: usize = 4294967296;

// Makes the table of a tally: its shares go to the first numbers of `shares`, one for each delay; a refusal leaves all of them.
pub fn table_of(tally: &[u32; COUNTS], shares: &mut [u32; SHARES]) -> Result<Table, Refusal<usize>>
    ensures { (result ≡ (table_outcome version_one tally.now shares.old).answer)
        × (shares.new ≡ (table_outcome version_one tally.now shares.old).shares) }
{
    table_as(VERSION_ONE, &tally[..], &mut shares[..])
}

// A table made by the limits of a version of the file.
fn table_as(f: Format, tally: &[u32], shares: &mut [u32]) -> Result<Table, Refusal<usize>>
    requires { TableFits f tally.now shares.old }
    ensures { (result ≡ (table_outcome f tally.now shares.old).answer)
        × (shares.new ≡ (table_outcome f tally.now shares.old).shares) }
{
    if !counts_rule(tally) {
        return Err(Refusal {
            number: 15,
            place: 0,
        });
    }
    let top = f.delay;
    let landings = number(tally[..=top].iter().sum());
    if landings == 0 {
        return Err(Refusal {
            number: 16,
            place: 0,
        });
    }
    let apart = number(tally[top + 1]);
    let delay = greatest_late(&tally[..=top]);
    put_shares(tally, landings, delay, shares);
    Ok(Table {
        delay,
        landings,
        apart,
    })
}

// The greatest lateness tallied; 0 if there is none. By a range: with `rposition` the table of a sparse tally takes longer than Rust's.
#[tactic(auto, using(crate::proofs::Greatest::last_found, crate::proofs::Greatest::none_found))]
fn greatest_late(tally: &[u32]) -> usize
    ensures { result ≡ greatest_late (length tally.now - 1) tally.now }
{
    for x in (1..tally.len()).rev() {
        if 0 < tally[x] {
            return x;
        }
    }
    0
}

// The shares of delays 0 to `delay`, as differences of cumulative shares, over the first numbers of `shares`.
#[tactic(auto, using(crate::proofs::Shares::last_turn))]
fn put_shares(tally: &[u32], landings: usize, delay: usize, shares: &mut [u32])
    requires { SharesFit tally.now landings delay shares.old }
    ensures { shares.new ≡ over (shares_of_cumulative (cumulative_shares landings tally.now delay)) shares.old }
{
    let reciprocal = SCALE / landings;
    let mut late = 0;
    let mut ahead = 0;
    for x in 0..=delay {
        late += number(tally[x]);
        let share = share_of(late, landings, reciprocal);
        shares[x] = cell(share - ahead);
        ahead = share;
    }
}

// The share of `late` landings, rounded down: by the reciprocal of all it is this or one too small, which one comparison tells. So a
// table takes one division in all.
#[tactic(auto, using(crate::proofs::Reciprocals::product_within, crate::proofs::Reciprocals::estimate_below, crate::proofs::Reciprocals::one_more, crate::proofs::Reciprocals::as_estimated))]
fn share_of(late: usize, landings: usize, reciprocal: usize) -> usize
    requires { ShareFits late landings reciprocal }
    ensures { result ≡ share_of landings late }
{
    let share = late * reciprocal / SCALE_OF_SHARES;
    if (share + 1) * landings <= SHARE_TOTAL * late {
        return share + 1;
    }
    share
}
