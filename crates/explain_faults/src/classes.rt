// Refusals 2 and 3: the class blocks, one by one, and how the sections join.
use crate::broken::BrokenFile;
use explain_words::{say, say_count, say_number};
use file_sections::{delay_rule, rows_end};
use files::Output;
use timetable::SHARE_TOTAL;

// 2: the class block that does not fit, or the sections that do not join.
pub fn print_layout_fault(out: &Output, broken: BrokenFile) {
    match broken.tables_end() {
        Ok(tables_end) => print_join_fault(out, broken, tables_end),
        Err(block) => {
            say_number(out, b"Class ", block.class);
            say_number(out, b": its block, from byte ", block.at);
            say_number(
                out,
                b" on, does not fit before the trailer at byte ",
                broken.trailer_start(),
            );
            say(out, b".\n");
        }
    }
    say(
        out,
        b"Bytes were lost or added on the way, or the export is wrong: ask for the file again.\n",
    );
}

// The sections of rows and of class blocks, which end at `tables_end`, do not fill the bytes up to the trailer.
fn print_join_fault(out: &Output, broken: BrokenFile, tables_end: usize) {
    let trailer = broken.trailer;
    say_number(out, b"The rows take bytes ", trailer.rowstart);
    say_number(out, b" up to ", rows_end(broken.f, trailer));
    say_number(out, b", the class blocks bytes ", trailer.tablestart);
    say_number(out, b" up to ", tables_end);
    say_number(
        out,
        b", and the trailer starts at byte ",
        broken.trailer_start(),
    );
    say(
        out,
        b".\nOne of the two must start at byte 0, the other where that one ends, and end where the trailer starts.\n",
    );
}

// 3: maximum delay, sum or last share of a class.
pub fn print_class_fault(out: &Output, broken: BrokenFile, class: usize) {
    let Some(at) = broken.blocks_end(broken.trailer.tablestart, class) else {
        return;
    };
    say_number(out, b"Class ", class);
    say_number(out, b", read from byte ", at);
    say(out, b" on: ");
    print_block_fault(out, broken, at);
    say(
        out,
        b"Correct the class; if it was written otherwise, bytes were lost or added on the way: ask for the file again.\n",
    );
}

// The first rule that the block at `at` breaks; where the others are kept, that of its last share.
fn print_block_fault(out: &Output, broken: BrokenFile, at: usize) {
    let delay = broken.number_at(at);
    if !delay_rule(broken.f, delay) {
        say_count(
            out,
            b"the maximum delay is ",
            delay,
            b" minute",
            b" minutes",
        );
        say_number(out, b", above ", broken.f.delay);
        say(out, b".\n");
        return;
    }
    let sum = broken.shares_in(at, delay);
    if sum != SHARE_TOTAL {
        say_number(out, b"the shares sum to ", sum);
        say_number(out, b", not ", SHARE_TOTAL);
        say(out, b".\n");
        return;
    }
    say_number(out, b"the last share, that of the maximum delay ", delay);
    say(out, b", is 0.\n");
}
