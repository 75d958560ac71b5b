// Two files for each reason (tests/run_explain/make.py packs them): prints what `explain` says of each.
#![tactic(auto)]

use explain_words::{say, say_number};
use files::{Ending, Output, ended, open_out};
use packed::{for_each_case, read_next};
use rooms::{QUERY, query_room};
use std::io::Read;
use std::process::ExitCode;

// Explains two files, each with room of its own. Where no query fits, all of its room is the query.
fn explain_case(out: &Output, from: &mut impl Read, place: usize, sailings: &[u8]) {
    let mut query = query_room();
    let short = read_next(from, &mut query).unwrap_or(QUERY);
    say_number(out, b"-- ", place);
    say(out, b"\n");
    explain_all::explain(out, sailings, Ending::Whole, &query[..short], Ending::Whole);
}

fn main(rt: HostRuntime) -> ExitCode {
    let out = open_out(rt.stdout(), rt.stderr());
    for_each_case(&rt, &out, "files", |from, place, sailings| {
        explain_case(&out, from, place, sailings);
    });
    ended(&out)
}
