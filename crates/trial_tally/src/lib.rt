// Document 01, "Both sides of each line": tallying and tables with their whole answers, for the comparison with an independent second program.
#![tactic(auto)]

ghost use Rattle.std.specs.Prelude.{◌≡◌};
ghost use Rattle.file_layout.specs.Format.{version_one};
ghost use Rattle.tally.specs.Landing.{landing_at};
ghost use Rattle.tally.specs.Outcome.{landing_outcome, tally_answer};
ghost use Rattle.tally_table.specs.Outcome.{table_outcome, table_answer};
ghost use Rattle.trial_answers.specs.Seen.{seen};

use numbers::{cell, number};
use tally::{COUNTS, Landing, tally_landing};
use tally_table::{SHARES, table_of};
use trial_answers::put_six;

// A landing: number and place; and the tally.
#[tactic(auto, using(tally::proofs::Small::landing_fits), unfolding(trial_answers::specs::Seen::seen, trial_answers::specs::Seen::six, tally::specs::Outcome::tally_answer))]
#[unsafe(no_mangle)]
pub extern "C" fn trial_tally(
    planned: u32,
    actual: u32,
    tally: &mut [u32; COUNTS],
    answer: &mut [u32],
)
    ensures { (answer.new ≡ seen (tally_answer (landing_outcome version_one (landing_at planned actual) tally.old).answer) answer.old)
        × (tally.new ≡ (landing_outcome version_one (landing_at planned actual) tally.old).tally) }
{
    let landing = Landing {
        planned: number(planned),
        actual: number(actual),
    };
    match tally_landing(landing, tally) {
        Ok(()) => put_six(0, 0, 0, 0, 0, 0, answer),
        Err(refusal) => put_six(
            cell(refusal.number),
            cell(refusal.place),
            0,
            0,
            0,
            0,
            answer,
        ),
    }
}

// The table of a tally: number, place, M, the landings that it rests on, those that stand apart; and the shares.
#[tactic(auto, using(tally_table::proofs::Small::table_fits), unfolding(trial_answers::specs::Seen::seen, trial_answers::specs::Seen::six, tally_table::specs::Outcome::table_answer))]
#[unsafe(no_mangle)]
pub extern "C" fn trial_table(tally: &[u32; COUNTS], shares: &mut [u32; SHARES], answer: &mut [u32])
    ensures { (answer.new ≡ seen (table_answer (table_outcome version_one tally.now shares.old).answer) answer.old)
        × (shares.new ≡ (table_outcome version_one tally.now shares.old).shares) }
{
    match table_of(tally, shares) {
        Ok(table) => put_six(
            0,
            0,
            cell(table.delay),
            cell(table.landings),
            cell(table.apart),
            0,
            answer,
        ),
        Err(refusal) => put_six(
            cell(refusal.number),
            cell(refusal.place),
            0,
            0,
            0,
            0,
            answer,
        ),
    }
}
