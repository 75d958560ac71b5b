// Document 02, E4: prints the delay table of one class's landings, which the file `landings` has, in the folder that it is run in.
#![tactic(auto)]

use explain_words::{say, say_count, say_number};
use files::{Ending, Output, ended, goes_on, open_out, read_file};
use numbers::number;
use std::process::ExitCode;
use tally::{COUNTS, LANDING_BYTES, tally_log};
use tally_table::{SHARES, table_of};
use timetable::Refusal;

// The most bytes of a log: more landings than one count holds.
const LOG: usize = 4194304;

fn log_room() -> [u8; LOG] {
    [0u8; LOG]
}

// A file that is missing or cannot be read counts as empty.
fn main(rt: HostRuntime) -> ExitCode {
    let out = open_out(rt.stdout(), rt.stderr());
    let mut log = log_room();
    let read = read_file(
        &rt,
        &out,
        b"landings",
        b"tables: landings cannot be read",
        &mut log,
    );
    let ending = read.ending;
    if goes_on(ending) {
        say_number(&out, b"The file landings has more than ", LOG);
        say(
            &out,
            b" bytes, the most that is read. No table was made.\nTake the landings of a shorter time.\n",
        );
        return ended(&out);
    }
    print_table(&out, &log[..read.count], ending);
    ended(&out)
}

// What a log comes to; behind it stands how its reading ended.
fn print_table(out: &Output, log: &[u8], ending: Ending) {
    if log.len() % LANDING_BYTES != 0 {
        say_number(
            out,
            b"The file landings ends inside a landing, which has ",
            LANDING_BYTES,
        );
        say(out, b" bytes. No table was made.\n");
        return;
    }
    let mut tally = [0u32; COUNTS];
    match tally_log(log, &mut tally) {
        Ok(_) => print_made(out, &tally, ending),
        Err(refusal) => say_refused_landing(out, refusal),
    }
}

// The table of a whole log: its first line, its shares and the counts that they are of; or why there is none.
#[tactic(auto, using(tally_table::proofs::Small::table_fits))]
fn print_made(out: &Output, tally: &[u32; COUNTS], ending: Ending) {
    let mut shares = [0u32; SHARES];
    match table_of(tally, &mut shares) {
        Ok(table) => {
            say_number(out, b"table ", table.delay);
            say_number(out, b" landings ", table.landings);
            say_number(out, b" apart ", table.apart);
            say_numbers(out, b"\nshares", &shares[..=table.delay]);
            say_numbers(out, b"\ncounts", &tally[..=table.delay]);
            say(out, b"\n");
        }
        Err(refusal) => {
            say_refused(out, refusal);
            say_nothing(out, number(tally[COUNTS - 1]), ending);
        }
    }
}

// Words, then the numbers.
fn say_numbers(out: &Output, words: &[u8], numbers: &[u32]) {
    say(out, words);
    for &x in numbers {
        say_number(out, b" ", number(x));
    }
}

fn say_refused(out: &Output, refusal: Refusal<usize>) {
    say_number(out, b"refused ", refusal.number);
    say(out, b"\n");
}

// 14 or 15: the landing by its number in the log.
fn say_refused_landing(out: &Output, refusal: Refusal<usize>) {
    say_refused(out, refusal);
    say_number(out, b"Landing ", refusal.place);
    match refusal.number {
        14 => say(
            out,
            b", counted from 0: its planned or its actual minute is above 10079.\n",
        ),
        _ => say(
            out,
            b", counted from 0: 1000000 landings are counted where it belongs, and no count goes further.\nTake the landings of a shorter time.\n",
        ),
    }
}

// 16: nothing is tallied.
fn say_nothing(out: &Output, apart: usize, ending: Ending) {
    if 0 < apart {
        say_count(
            out,
            b"No landing is at most 120 minutes late: ",
            apart,
            b" stands apart.\n",
            b" stand apart.\n",
        );
        return;
    }
    match ending {
        Ending::Missing => say(out, b"There is no file landings in this folder.\n"),
        Ending::Unreadable => say(out, b"The file landings cannot be read.\n"),
        _ => say(out, b"The file landings is empty.\n"),
    }
}
