// For the office: explains the files `sailings` and `query` of the folder it is run in.
#![tactic(auto)]

use files::{ended, open_out, read_file};
use rooms::{query_room, sailings_room};
use std::process::ExitCode;

fn main(rt: HostRuntime) -> ExitCode {
    let out = open_out(rt.stdout(), rt.stderr());
    let mut sailings = sailings_room();
    let mut query = query_room();
    let long = read_file(
        &rt,
        &out,
        b"sailings",
        b"explain: sailings cannot be read",
        &mut sailings,
    );
    let short = read_file(
        &rt,
        &out,
        b"query",
        b"explain: query cannot be read",
        &mut query,
    );
    let sailings_end = long.ending;
    let query_end = short.ending;
    explain_all::explain(
        &out,
        &sailings[..long.count],
        sailings_end,
        &query[..short.count],
        query_end,
    );
    ended(&out)
}
