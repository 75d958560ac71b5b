// Refusal 8: from where, and until when, there is a safe journey to the query's target.
ghost use Rattle.std.specs.Prelude.{Ok, true, ◌≡◌, ◌+◌, ◌*◌, ◌≤◌, ◌<◌, length};
ghost use Rattle.file_layout.specs.Check.{checked_as};
ghost use Rattle.query.specs.Query.{QueryFits, most_gate};
ghost use Rattle.plan_rows.specs.Sections.{Plannable};
ghost use Rattle.explain_starts.specs.Starts.{StartFits};

use crate::last_start;
use explain_words::{say, say_number, say_time};
use file_layout::{Format, Trailer};
use files::Output;
use query::Query;
use rooms::work_room;

// Until when there is a journey from the query's source, from which other stops there is one, and what can help.
pub fn print_starts(out: &Output, file: &[u8], f: Format, trailer: Trailer, q: Query)
    requires { Plannable f × (checked_as f file.now ≡ Ok trailer) × QueryFits trailer.stops f.lastminute q }
{
    let mut work = work_room();
    let start = last_start(file, f, trailer, q.source, q.target, q.gate, &mut work);
    say_number(out, b"From stop ", q.source);
    match start {
        Some(minute) => {
            say_time(out, b" there is one until ", minute);
            say(out, b".\n");
            if !print_others(out, file, f, trailer, q, &mut work) {
                say(out, b"No other stop has one.\n");
            }
            say_help(
                out,
                b"A later start cannot help. An earlier one, another target, next week's file or a relief sailing can",
                q.gate,
            );
        }
        None => {
            say(out, b" there is none in this file, at any minute.\n");
            if !print_others(out, file, f, trailer, q, &mut work) {
                say(out, b"No other stop has one either.\n");
            }
            say_help(
                out,
                b"Another minute cannot help. Another target, next week's file or a relief sailing can",
                q.gate,
            );
        }
    }
}

// What can help; where gates close ahead of departure, that they close later too.
fn say_help(out: &Output, words: &[u8], gate: usize) {
    say(out, words);
    if 0 < gate {
        say(out, b", and so can gates that close later");
    }
    say(out, b".\n");
}

// The other stops with a journey, each with its last minute, in one line; false where there is none.
fn print_others(
    out: &Output,
    file: &[u8],
    f: Format,
    trailer: Trailer,
    q: Query,
    work: &mut [u32],
) -> bool
    requires { Plannable f × (checked_as f file.now ≡ Ok trailer) × (q.target < trailer.stops)
        × (q.gate ≤ most_gate) × (4 * trailer.rows + 2500 ≤ length work.old) }
{
    let mut found = false;
    for stop in 0..trailer.stops {
        if is_other(q, stop) {
            found = print_other(out, file, f, trailer, stop, q, found, work);
        }
    }
    if found {
        say(out, b".\n");
    }
    found
}

// Neither the source nor the target.
fn is_other(q: Query, stop: usize) -> bool
    ensures { result ≡ true → stop ≡ q.target → ⊥ }
{
    stop != q.source && stop != q.target
}

// A stop's last minute, where it has one, behind those `found` before it; whether any is found now.
fn print_other(
    out: &Output,
    file: &[u8],
    f: Format,
    trailer: Trailer,
    stop: usize,
    q: Query,
    found: bool,
    work: &mut [u32],
) -> bool
    requires { StartFits f file.now trailer stop q.target q.gate work.old }
{
    let Some(minute) = last_start(file, f, trailer, stop, q.target, q.gate, work) else {
        return found;
    };
    if found {
        say(out, b";");
    } else {
        say(out, b"From other stops:");
    }
    say_number(out, b" stop ", stop);
    say_time(out, b" until ", minute);
    true
}
