// For the office: from where, and until when, there is a safe journey to a target.
#![tactic(auto)]

mod words;

ghost use Rattle.std.specs.Prelude.{◌≡◌, ◌≤◌};
ghost use Rattle.file_layout.specs.Decode.{decode};
ghost use Rattle.planner.specs.Outcome.{work_after};
ghost use Rattle.explain_starts.specs.Starts.{LastStart, StartFits, Starts, Tells};

use file_layout::{Format, Trailer};
use planner::earliest_checked;
use query::{LEAST_MARGIN, Query};
pub use words::print_starts;

// Of the minutes 0 to the last of the file's version, the last at which a safe journey from `source` to `target` can be started with a gate time, by halving; None where there is one at no minute at all.
pub fn last_start(
    file: &[u8],
    f: Format,
    trailer: Trailer,
    source: usize,
    target: usize,
    gate: usize,
    work: &mut [u32],
) -> Option<usize>
    requires { StartFits f file.now trailer source target gate work.old }
    ensures { LastStart (decode f file.now) source target gate f.lastminute result
        × (work.new ≡ work_after f file.now work.old) }
{
    if !starts_at(file, f, trailer, source, target, gate, 0, work) {
        return None;
    }
    // By halves, over minutes that no slice holds: `partition_point` is a slice's.
    let mut low = 0;
    let mut high = f.lastminute;
    while low < high {
        let middle = high - (high - low) / 2;
        if starts_at(file, f, trailer, source, target, gate, middle, work) {
            low = middle;
        } else {
            high = middle - 1;
        }
    }
    Some(low)
}

// There is a safe journey with a gate time from `source`, at or after `minute`, to `target`.
fn starts_at(
    file: &[u8],
    f: Format,
    trailer: Trailer,
    source: usize,
    target: usize,
    gate: usize,
    minute: usize,
    work: &mut [u32],
) -> bool
    requires { StartFits f file.now trailer source target gate work.old × (minute ≤ f.lastminute) }
    ensures { Tells (Starts (decode f file.now) source target gate minute) result
        × (work.new ≡ work_after f file.now work.old) }
{
    let q = Query {
        source,
        target,
        minute,
        code: 0,
        margin: LEAST_MARGIN,
        gate,
    };
    earliest_checked(file, f, trailer, q, work).is_ok()
}
