// Stored cases of the sheet (tests/run_sheets/make.py packs them): prints the sheet of each.
#![tactic(auto)]

use files::{Output, ended, open_out, write_number, write_out};
use packed::{for_each_case, read_next};
use rooms::{SAILINGS, sailings_room};
use sheet_text::{SHEET_ROOM, sheet_room};
use std::io::Read;
use std::process::ExitCode;

fn print_sheet(out: &Output, place: usize, sailings: &[u8], query: &[u8]) {
    write_out(out, b"case ");
    write_number(out, place);
    write_out(out, b"\n");
    let mut text = sheet_room();
    if let Some(end) = sheet_text::sheet(sailings, query, &mut text) {
        if end <= SHEET_ROOM {
            write_out(out, &text[..end]);
        }
    }
}

// Prints the sheet of a case. Where no query fits, all of its room is the query.
fn print_case(out: &Output, from: &mut impl Read, place: usize, sailings: &[u8]) {
    let mut query = sailings_room();
    let short = read_next(from, &mut query).unwrap_or(SAILINGS);
    print_sheet(out, place, sailings, &query[..short]);
}

fn main(rt: HostRuntime) -> ExitCode {
    let out = open_out(rt.stdout(), rt.stderr());
    for_each_case(&rt, &out, "cases", |from, place, sailings| {
        print_case(&out, from, place, sailings);
    });
    ended(&out)
}
