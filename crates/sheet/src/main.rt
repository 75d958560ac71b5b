// Document 01, "The sheet": prints the sheet for the files `sailings` and `query` of the folder it is run in.
#![tactic(auto)]

use files::{Output, ended, open_out, read_file, write_out};
use rooms::{query_room, sailings_room};
use sheet_text::{SHEET_ROOM, sheet_room};
use std::process::ExitCode;

// Writes the sheet of the two files' bytes.
fn print_sheet(out: &Output, sailings: &[u8], query: &[u8]) {
    let mut text = sheet_room();
    if let Some(end) = sheet_text::sheet(sailings, query, &mut text) {
        if end <= SHEET_ROOM {
            write_out(out, &text[..end]);
        }
    }
}

// A file that is missing or cannot be read counts as empty.
fn main(rt: HostRuntime) -> ExitCode {
    let out = open_out(rt.stdout(), rt.stderr());
    let mut sailings = sailings_room();
    let mut query = query_room();
    let long = read_file(
        &rt,
        &out,
        b"sailings",
        b"sheet: sailings cannot be read",
        &mut sailings,
    );
    let short = read_file(
        &rt,
        &out,
        b"query",
        b"sheet: query cannot be read",
        &mut query,
    );
    print_sheet(&out, &sailings[..long.count], &query[..short.count]);
    ended(&out)
}
