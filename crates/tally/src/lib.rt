// Document 02, E4: landings of the pier log, tallied by lateness.
#![tactic(auto)]

ghost use Rattle.std.specs.Prelude.{◌≡◌, ◌+◌, ◌^◌, ◌<◌, length};
ghost use Rattle.numbers.specs.Numbers.{u16_at};
ghost use Rattle.file_layout.specs.Format.{version_one};
ghost use Rattle.tally.specs.Landing.{landing_at};
ghost use Rattle.tally.specs.Tally.{place_of, counts_rule, minutes_rule};
ghost use Rattle.tally.specs.Outcome.{landing_outcome};
ghost use Rattle.tally.specs.LogOutcome.{landings_in, log_outcome};
ghost use Rattle.tally.specs.Fits.{TallyFits};

use file_layout::{Format, VERSION_ONE};
use numbers::u16_at;
use timetable::Refusal;

// A landing of the pier log: the minute that was planned, and the actual one.
#[derive(Clone, Copy)]
pub struct Landing {
    pub planned: usize,
    pub actual: usize,
}

// The numbers of a tally for version 1: landings by lateness 0 to 120, and behind them how many were later.
pub const COUNTS: usize = 122;

// A landing's bytes in a log.
pub const LANDING_BYTES: usize = 4;

// Each count stops here.
const MOST_COUNT: u32 = 1000000;

// Refusal 15, for a count that is above its limit or would be.
const COUNT_ABOVE: Refusal<usize> = Refusal {
    number: 15,
    place: 0,
};

// Counts a landing in its tally; a refusal leaves the tally as it was.
pub fn tally_landing(landing: Landing, tally: &mut [u32; COUNTS]) -> Result<(), Refusal<usize>>
    ensures { (result ≡ (landing_outcome version_one landing tally.old).answer)
        × (tally.new ≡ (landing_outcome version_one landing tally.old).tally) }
{
    tally_as(VERSION_ONE, landing, &mut tally[..])
}

// Counts the landings of a log, four bytes each, up to the first that is refused.
pub fn tally_log(log: &[u8], tally: &mut [u32; COUNTS]) -> Result<usize, Refusal<usize>>
    ensures { (result ≡ (log_outcome version_one 0 (landings_in log.now) tally.old).answer)
        × (tally.new ≡ (log_outcome version_one 0 (landings_in log.now) tally.old).tally) }
{
    log_as(VERSION_ONE, log, &mut tally[..])
}

// A landing counted by the limits of a version of the file; version 1 has calls of its own, with a tally of its own length. `TallyFits` is asked three times: a struct around the lent slice is no shorter.
fn tally_as(f: Format, landing: Landing, tally: &mut [u32]) -> Result<(), Refusal<usize>>
    requires { TallyFits f tally.old }
    ensures { (result ≡ (landing_outcome f landing tally.old).answer)
        × (tally.new ≡ (landing_outcome f landing tally.old).tally) }
{
    let kept = counts_rule(tally);
    count(f, landing, kept, tally)
}

// A log counted by the limits of a version of the file. Its given counts are looked at once: no landing takes one past its limit.
#[tactic(auto, using(crate::proofs::LogSteps::log_on, crate::proofs::LogSteps::log_stopped, crate::proofs::LogSteps::log_end, crate::proofs::LogSteps::fewer_left, crate::proofs::Kept::kept_on))]
fn log_as(f: Format, log: &[u8], tally: &mut [u32]) -> Result<usize, Refusal<usize>>
    requires { TallyFits f tally.old }
    ensures { (result ≡ (log_outcome f 0 (landings_in log.now) tally.old).answer)
        × (tally.new ≡ (log_outcome f 0 (landings_in log.now) tally.old).tally) }
{
    let kept = counts_rule(tally);
    for (i, bytes) in log.chunks_exact(LANDING_BYTES).enumerate() {
        count(f, landing_of(bytes), kept, tally).map_err(|refusal| Refusal {
            place: i,
            ..refusal
        })?;
    }
    Ok(log.len() / LANDING_BYTES)
}

// A landing counted in a tally of which `kept` says whether no given count is above its limit.
#[tactic(auto, using(crate::proofs::Answers::minute_refused, crate::proofs::Answers::count_refused, crate::proofs::Answers::full_refused, crate::proofs::Answers::landing_counted, crate::proofs::Answers::stored_landing, crate::proofs::Places::place_inside))]
fn count(f: Format, landing: Landing, kept: bool, tally: &mut [u32]) -> Result<(), Refusal<usize>>
    requires { TallyFits f tally.old × (kept ≡ counts_rule tally.old) }
    ensures { (result ≡ (landing_outcome f landing tally.old).answer)
        × (tally.new ≡ (landing_outcome f landing tally.old).tally) }
{
    if !minutes_rule(landing, f) {
        return Err(Refusal {
            number: 14,
            place: 0,
        });
    }
    if !kept {
        return Err(COUNT_ABOVE);
    }
    let at = place_of(landing, f);
    if MOST_COUNT <= tally[at] {
        return Err(COUNT_ABOVE);
    }
    tally[at] += 1;
    Ok(())
}

// The landing that these bytes are of.
fn landing_of(bytes: &[u8]) -> Landing
    requires { 3 < length bytes.now }
    ensures { result ≡ landing_at (u16_at bytes.now 0) (u16_at bytes.now 2) }
{
    Landing {
        planned: u16_at(bytes, 0),
        actual: u16_at(bytes, 2),
    }
}

// Neither minute is past the version's last.
#[tactic(auto, unfolding(crate::specs::Tally::minutes_rule))]
fn minutes_rule(landing: Landing, f: Format) -> bool
    ensures { result ≡ minutes_rule f landing }
{
    landing.planned <= f.lastminute && landing.actual <= f.lastminute
}

// No count is above its limit: the largest of them is not.
#[tactic(auto, using(crate::proofs::Counts::counts_by_largest))]
pub fn counts_rule(tally: &[u32]) -> bool
    ensures { result ≡ counts_rule tally.now }
{
    tally.iter().fold(0, |largest, &count| largest.max(count)) <= MOST_COUNT
}

// Which number of a tally a landing belongs to: early ones to that of no lateness.
#[tactic(auto, using(crate::proofs::Places::place_capped))]
fn place_of(landing: Landing, f: Format) -> usize
    requires { f.delay + 1 < 2 ^ 64 }
    ensures { result ≡ place_of f.delay landing }
{
    let late = landing.actual.saturating_sub(landing.planned);
    late.min(f.delay + 1)
}
