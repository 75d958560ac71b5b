// Document 01, "Both sides of each line": the entry points with their whole answers, for the comparison with an independent second program.
#![tactic(auto)]

ghost use Rattle.std.specs.Prelude.{[], ◌∷◌, ◌≡◌};
ghost use Rattle.file_layout.specs.Check.{answer_of, checked};
ghost use Rattle.house.specs.HouseShare.{house_share, house_answer};
ghost use Rattle.file_layout.specs.Format.{version_one};
ghost use Rattle.query.specs.Query.{plain_query, with_code, with_gate, with_margin};
ghost use Rattle.planner.specs.Outcome.{plan_outcome, plan_answer, earliest_outcome, earliest_answer};
ghost use Rattle.trial_answers.specs.Seen.{in_six, seen};

use file_check::check;
use house::house_share;
use numbers::cell;
use planner::{earliest_with_gate, in_cells, plan};
use query::{LEAST_MARGIN, query_of};
use timetable::Refusal;
use trial_answers::put_six;

// The check: number, place, S, n, K.
#[tactic(auto, unfolding(trial_answers::specs::Seen::seen, trial_answers::specs::Seen::six, file_layout::specs::Check::answer_of))]
#[unsafe(no_mangle)]
pub extern "C" fn trial_check(file: &[u8], answer: &mut [u32])
    ensures { answer.new ≡ seen (answer_of (checked file.now)) answer.old }
{
    match check(file) {
        Ok(trailer) => put_six(
            0,
            0,
            cell(trailer.stops),
            cell(trailer.rows),
            cell(trailer.classes),
            0,
            answer,
        ),
        Err(refusal) => put_refused(in_cells(refusal), answer),
    }
}

// The plan: number, place, rides, expected ticks, latest minute, bound; and both slices.
#[unsafe(no_mangle)]
pub extern "C" fn trial_plan(
    file: &[u8],
    source: u32,
    target: u32,
    minute: u32,
    code: u32,
    work: &mut [u32],
    rides: &mut [u32],
    answer: &mut [u32],
)
    ensures { (answer.new ≡ seen
        (plan_answer (plan_outcome version_one file.now (with_code code (plain_query source target minute)) work.old rides.old).answer)
        answer.old)
        × (work.new ≡ (plan_outcome version_one file.now (with_code code (plain_query source target minute)) work.old rides.old).work)
        × (rides.new ≡ (plan_outcome version_one file.now (with_code code (plain_query source target minute)) work.old rides.old).plan) }
{
    trial_plan_margin(
        file,
        source,
        target,
        minute,
        code,
        cell(LEAST_MARGIN),
        work,
        rides,
        answer,
    );
}

// The same with a margin.
#[unsafe(no_mangle)]
pub extern "C" fn trial_plan_margin(
    file: &[u8],
    source: u32,
    target: u32,
    minute: u32,
    code: u32,
    margin: u32,
    work: &mut [u32],
    rides: &mut [u32],
    answer: &mut [u32],
)
    ensures { (answer.new ≡ seen
        (plan_answer (plan_outcome version_one file.now (with_margin margin (with_code code (plain_query source target minute))) work.old rides.old).answer)
        answer.old)
        × (work.new ≡ (plan_outcome version_one file.now (with_margin margin (with_code code (plain_query source target minute))) work.old rides.old).work)
        × (rides.new ≡ (plan_outcome version_one file.now (with_margin margin (with_code code (plain_query source target minute))) work.old rides.old).plan) }
{
    trial_plan_gate(
        file, source, target, minute, code, margin, 0, work, rides, answer,
    );
}

// The same with a gate time.
#[tactic(auto, unfolding(trial_answers::specs::Seen::seen, trial_answers::specs::Seen::six, planner::specs::Outcome::plan_answer))]
#[unsafe(no_mangle)]
pub extern "C" fn trial_plan_gate(
    file: &[u8],
    source: u32,
    target: u32,
    minute: u32,
    code: u32,
    margin: u32,
    gate: u32,
    work: &mut [u32],
    rides: &mut [u32],
    answer: &mut [u32],
)
    ensures { (answer.new ≡ seen
        (plan_answer (plan_outcome version_one file.now (with_gate gate (with_margin margin (with_code code (plain_query source target minute)))) work.old rides.old).answer)
        answer.old)
        × (work.new ≡ (plan_outcome version_one file.now (with_gate gate (with_margin margin (with_code code (plain_query source target minute)))) work.old rides.old).work)
        × (rides.new ≡ (plan_outcome version_one file.now (with_gate gate (with_margin margin (with_code code (plain_query source target minute)))) work.old rides.old).plan) }
{
    let q = query_of(source, target, minute, code, margin, gate);
    match plan(file, q, work, rides) {
        Ok(p) => put_six(0, 0, p.rides, p.expected, p.latest, p.bound, answer),
        Err(refusal) => put_refused(refusal, answer),
    }
}

// Earliest safe arrival: number, place, E; and the work slice.
#[unsafe(no_mangle)]
pub extern "C" fn trial_earliest(
    file: &[u8],
    source: u32,
    target: u32,
    minute: u32,
    work: &mut [u32],
    answer: &mut [u32],
)
    ensures { (answer.new ≡ seen
        (earliest_answer (earliest_outcome version_one file.now (plain_query source target minute) work.old).answer)
        answer.old)
        × (work.new ≡ (earliest_outcome version_one file.now (plain_query source target minute) work.old).work) }
{
    trial_earliest_gate(file, source, target, minute, 0, work, answer);
}

// The same with a gate time.
#[tactic(auto, unfolding(trial_answers::specs::Seen::seen, trial_answers::specs::Seen::six, planner::specs::Outcome::earliest_answer))]
#[unsafe(no_mangle)]
pub extern "C" fn trial_earliest_gate(
    file: &[u8],
    source: u32,
    target: u32,
    minute: u32,
    gate: u32,
    work: &mut [u32],
    answer: &mut [u32],
)
    ensures { (answer.new ≡ seen
        (earliest_answer (earliest_outcome version_one file.now (with_gate gate (plain_query source target minute)) work.old).answer)
        answer.old)
        × (work.new ≡ (earliest_outcome version_one file.now (with_gate gate (plain_query source target minute)) work.old).work) }
{
    let q = query_of(source, target, minute, 0, cell(LEAST_MARGIN), gate);
    let found = earliest_with_gate(file, q.source, q.target, q.minute, q.gate, work);
    match found {
        Ok(arrival) => put_six(0, 0, arrival, 0, 0, 0, answer),
        Err(refusal) => put_refused(refusal, answer),
    }
}

// A cumulative share of a house table: number, place, share.
#[tactic(auto, unfolding(trial_answers::specs::Seen::seen, trial_answers::specs::Seen::six, house::specs::HouseShare::house_answer))]
#[unsafe(no_mangle)]
pub extern "C" fn trial_house(pair: u32, minute: u32, answer: &mut [u32])
    ensures { answer.new ≡ seen (house_answer (house_share pair minute)) answer.old }
{
    let (number, place, share) = match house_share(pair, minute) {
        Ok(share) => (0, 0, share),
        Err(refusal) => (refusal.number, refusal.place, 0),
    };
    put_six(number, place, share, 0, 0, 0, answer);
}

// A refusal by its number and place, without values.
fn put_refused(refusal: Refusal<u32>, answer: &mut [u32])
    ensures { answer.new ≡ in_six (refusal.number ∷ refusal.place ∷ 0 ∷ 0 ∷ 0 ∷ 0 ∷ []) answer.old }
{
    put_six(refusal.number, refusal.place, 0, 0, 0, 0, answer);
}
