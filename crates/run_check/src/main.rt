// Files at both sides of every line of the check (tests/run_check/make.py packs them): prints what `check` answers to each.
#![tactic(auto)]

use files::{Output, ended, open_out, write_number, write_out};
use packed::for_each_case;
use std::process::ExitCode;

fn print_number(out: &Output, n: usize) {
    write_out(out, b" ");
    write_number(out, n);
}

// What the check answers to the file.
fn print_answer(out: &Output, file: &[u8]) {
    match file_check::check(file) {
        Ok(trailer) => {
            write_out(out, b" sound");
            print_number(out, trailer.stops);
            print_number(out, trailer.rows);
            print_number(out, trailer.classes);
        }
        Err(refusal) => {
            write_out(out, b" refused");
            print_number(out, refusal.number);
            print_number(out, refusal.place);
        }
    }
    write_out(out, b"\n");
}

fn main(rt: HostRuntime) -> ExitCode {
    let out = open_out(rt.stdout(), rt.stderr());
    for_each_case(&rt, &out, "files", |_, place, file| {
        write_number(&out, place);
        print_answer(&out, file);
    });
    ended(&out)
}
