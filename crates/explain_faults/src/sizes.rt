// Refusal 1: file length, version, S, n or K outside its range.
use crate::broken::BrokenFile;
use explain_words::{say, say_count, say_number};
use file_layout::{Format, Trailer};
use file_sections::{length_in_range, rows_rule, stops_rule, version_rule};
use files::Output;
use timetable::{FEWEST_CLASSES, FEWEST_STOPS, MOST_CLASSES, MOST_ROWS, MOST_STOPS};

// The first number that is out of its range; with `more` the file goes on beyond its bytes.
pub fn print_size_fault(out: &Output, broken: BrokenFile, more: bool) {
    let f = broken.f;
    if !length_in_range(f, broken.bytes.len()) {
        print_length_fault(out, f, broken.bytes.len(), more);
        return;
    }
    if !version_rule(f, broken.trailer) {
        say_number(out, b"The last ", f.trailer);
        say_number(out, b" bytes are no trailer of version ", f.version);
        say(out, b": cut off, lengthened or no sailing file.\n");
        return;
    }
    print_count_fault(out, broken.trailer);
}

fn print_length_fault(out: &Output, f: Format, length: usize, more: bool) {
    say(out, b"The file sailings has ");
    if more {
        say(out, b"at least ");
    }
    say_count(out, b"", length, b" byte", b" bytes");
    say_number(out, b", but a sailing file has ", f.fewestbytes);
    say_number(out, b" to ", f.mostbytes);
    if length < f.fewestbytes {
        say(out, b": it is cut off, or no sailing file.\n");
    } else {
        say(out, b": it is lengthened, or no sailing file.\n");
    }
}

// The first of S and n that is out of its range, or else K.
fn print_count_fault(out: &Output, trailer: Trailer) {
    say(out, b"The trailer says ");
    if !stops_rule(trailer) {
        say_count(out, b"", trailer.stops, b" stop", b" stops");
        say_range(out, FEWEST_STOPS, MOST_STOPS);
        say(out, b".\n");
    } else if !rows_rule(trailer) {
        say_count(out, b"", trailer.rows, b" row", b" rows");
        say_range(out, 0, MOST_ROWS);
        say(
            out,
            b": plan fewer days at a time, or leave sailings out.\n",
        );
    } else {
        say_count(out, b"", trailer.classes, b" class", b" classes");
        say_range(out, FEWEST_CLASSES, MOST_CLASSES);
        say_class_advice(out, trailer.classes);
    }
}

fn say_range(out: &Output, least: usize, most: usize) {
    say_number(out, b", but a file has ", least);
    say_number(out, b" to ", most);
}

fn say_class_advice(out: &Output, classes: usize) {
    if MOST_CLASSES < classes {
        say(out, b": let sailings share a class.\n");
    } else {
        say(out, b".\n");
    }
}
