// Document 01, "Both sides of each line": the import with its whole answer, for the comparison with an independent second program.
#![tactic(auto)]

ghost use Rattle.std.specs.Prelude.{◌≡◌};
ghost use Rattle.gtfs_import.specs.Import.{import_answer, import_outcome};
ghost use Rattle.trial_answers.specs.Seen.{seen};

use gtfs_import::import_stop_times;
use numbers::{cell, number};
use trial_answers::put_six;

// The import: number, place, S, n, K and the bytes written; and the lent bytes.
#[tactic(auto, using(gtfs_import::proofs::Small::import_fits), unfolding(trial_answers::specs::Seen::seen, trial_answers::specs::Seen::six, gtfs_import::specs::Import::import_answer))]
#[unsafe(no_mangle)]
pub extern "C" fn trial_import(text: &[u8], day: u32, out: &mut [u8], answer: &mut [u32])
    ensures { (answer.new ≡ seen (import_answer (import_outcome text.now day out.old).answer) answer.old)
        × (out.new ≡ (import_outcome text.now day out.old).out) }
{
    match import_stop_times(text, number(day), out) {
        Ok(file) => put_six(
            0,
            0,
            cell(file.trailer.stops),
            cell(file.trailer.rows),
            cell(file.trailer.classes),
            cell(file.bytes),
            answer,
        ),
        Err(refusal) => put_six(
            cell(refusal.number),
            cell(refusal.place),
            0,
            0,
            0,
            0,
            answer,
        ),
    }
}
