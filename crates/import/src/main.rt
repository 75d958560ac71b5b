// Document 02, E2: writes `sailings`, and beside it `names`, of the partner's `stop_times.txt` in the folder it is run in.
#![tactic(auto)]

use explain_words::{say, say_count, say_number};
use file_layout::Trailer;
use files::{Ending, Output, ended, fail, goes_on, open_out, read_file};
use gtfs_fields::whole_below;
use gtfs_import::{NAMES_ROOM, Written, import_stop_times, names_of};
use import_words::{say_refusal, say_refused};
use rooms::{SAILINGS, sailings_room};
use std::env::FillError;
use std::fs::{OpenFile, OpenOptions};
use std::io::{Error, ErrorKind, Write};
use std::process::ExitCode;
use std::rt::{Env, Files};
use std::{fs, io};
use timetable::Refusal;

// The most bytes of a text: some 260 a line, where a file has the most calls.
const TEXT: usize = 1048576;

// An argument that has more bytes is no day.
const WORD: usize = 16;

// Arguments are read below this number; which of them are days is the import's to say.
const NUMBERS: usize = 65536;

fn text_room() -> [u8; TEXT] {
    [0u8; TEXT]
}

fn names_room() -> [u8; NAMES_ROOM] {
    [0u8; NAMES_ROOM]
}

// The one argument, if it is a number.
fn asked_day(rt: &impl Env) -> Option<usize> {
    let mut word = [0u8; WORD];
    let count = rt.arg(1, &mut word).ok()?;
    if has_more(rt) {
        return None;
    }
    whole_below(&word[..count], NUMBERS)
}

// Whether there is a second argument.
fn has_more(rt: &impl Env) -> bool {
    let mut word = [0u8; WORD];
    !matches!(rt.arg(2, &mut word), Err(FillError::NotPresent))
}

// A file that is missing or cannot be read counts as empty.
fn main(rt: HostRuntime) -> ExitCode {
    let out = open_out(rt.stdout(), rt.stderr());
    let Some(day) = asked_day(&rt) else {
        say(
            &out,
            b"usage: import DAY\nReads stop_times.txt in this folder and writes sailings and names for that service day, 1 to 7.\n",
        );
        return ended(&out);
    };
    let mut text = text_room();
    let read = read_file(
        &rt,
        &out,
        b"stop_times.txt",
        b"import: stop_times.txt cannot be read",
        &mut text,
    );
    let ending = read.ending;
    if goes_on(ending) {
        say_too_long(&out);
        return ended(&out);
    }
    import(&rt, &out, &text[..read.count], ending, day);
    ended(&out)
}

// A text that is cut short would be another timetable.
fn say_too_long(out: &Output) {
    say_number(out, b"stop_times.txt has more than ", TEXT);
    say(
        out,
        b" bytes, the most that is read. Nothing was written.\nTake the trips of this service day alone, or those of fewer lines.\n",
    );
}

// What a text comes to; behind it stands how its reading ended.
fn import(rt: &impl Files, out: &Output, text: &[u8], ending: Ending, day: usize) {
    let mut file = sailings_room();
    match import_stop_times(text, day, &mut file) {
        Ok(Written { trailer, bytes }) => {
            if bytes <= SAILINGS {
                write_both(rt, out, text, day, trailer, &file[..bytes]);
            }
        }
        Err(refusal) => say_why(out, text, ending, day, refusal),
    }
}

// An empty text is refused by its header, for which there is a better reason.
fn say_why(out: &Output, text: &[u8], ending: Ending, day: usize, refusal: Refusal<usize>) {
    if !text.is_empty() || refusal.number == 6 {
        say_refusal(out, text, day, refusal);
        return;
    }
    say_refused(out, refusal.number);
    match ending {
        Ending::Missing => say(out, b"There is no file stop_times.txt in this folder.\n"),
        Ending::Unreadable => say(out, b"The file stop_times.txt cannot be read.\n"),
        _ => say(out, b"The file stop_times.txt is empty.\n"),
    }
}

// Writes both files of a text that is imported, and says what they hold.
fn write_both(
    rt: &impl Files,
    out: &Output,
    text: &[u8],
    day: usize,
    trailer: Trailer,
    sailings: &[u8],
) {
    let mut names = names_room();
    let Ok(end) = names_of(text, day, &mut names) else {
        return;
    };
    if NAMES_ROOM < end {
        return;
    }
    if !write_beside(rt, out, &names[..end], sailings) {
        say(out, b"Nothing was written.\n");
        return;
    }
    if put_in_place(rt, out) {
        say_written(out, trailer, sailings.len());
        say_old_query(rt, out);
    }
}

// Whether both files are written in full, beside the places that they will take.
fn write_beside(rt: &impl Files, out: &Output, names: &[u8], sailings: &[u8]) -> bool {
    if !write_new(
        rt,
        out,
        "names.new",
        b"import: names.new cannot be written",
        names,
    ) {
        return false;
    }
    if !write_new(
        rt,
        out,
        "sailings.new",
        b"import: sailings.new cannot be written",
        sailings,
    ) {
        remove(rt, "names.new");
        return false;
    }
    true
}

// Makes a file of these bytes and waits until the disk has them. Where that fails it is told by `words` and the reason, and none is left.
// Nothing is said on the standard output meanwhile: if that was closed, the file has its number.
fn write_new(rt: &impl Files, out: &Output, path: &str, words: &[u8], bytes: &[u8]) -> bool {
    let mut file = match create(rt, path) {
        Ok(file) => file,
        Err(error) => {
            say_not_made(out, words, &error);
            return false;
        }
    };
    match write_through(&mut file, bytes) {
        Ok(()) => true,
        Err(error) => {
            fail(out, words, &error);
            remove(rt, path);
            false
        }
    }
}

// Makes a file that is not there yet.
fn create<R: Files>(rt: &R, path: &str) -> io::Result<R::File> {
    let mut options = OpenOptions::new();
    options.write(true).create_new(true);
    options.open(rt, path)
}

fn write_through(file: &mut (impl Write + OpenFile), bytes: &[u8]) -> io::Result<()> {
    file.write_all(bytes)?;
    file.sync_all()
}

// Where that fails, the file stays.
fn remove(rt: &impl Files, path: &str) {
    let _ = fs::remove_file(rt, path);
}

fn say_not_made(out: &Output, words: &[u8], error: &Error) {
    fail(out, words, error);
    if error.kind() == ErrorKind::AlreadyExists {
        say(
            out,
            b"An import is at work in this folder, or one was cut off: if none is at work, remove the file and try again.\n",
        );
    }
}

// The names take their place first, so that no new sailings stand without theirs.
fn put_in_place(rt: &impl Files, out: &Output) -> bool {
    if let Err(error) = fs::rename(rt, "names.new", "names") {
        fail(out, b"import: names cannot be put in place", &error);
        remove(rt, "names.new");
        remove(rt, "sailings.new");
        say(out, b"Nothing was written.\n");
        return false;
    }
    if let Err(error) = fs::rename(rt, "sailings.new", "sailings") {
        fail(out, b"import: sailings cannot be put in place", &error);
        remove(rt, "sailings.new");
        remove(rt, "names");
        say(
            out,
            b"sailings is as it was. names is gone: it would give other stops' names to it.\n",
        );
        return false;
    }
    true
}

fn say_written(out: &Output, trailer: Trailer, bytes: usize) {
    say_count(out, b"imported ", trailer.stops, b" stop", b" stops");
    say_count(out, b", ", trailer.rows, b" row", b" rows");
    say_count(out, b", ", bytes, b" byte", b" bytes");
    say(out, b"\n");
}

// A query calls stops by their numbers, which an import gives anew.
fn say_old_query(rt: &impl Files, out: &Output) {
    if fs::open(rt, "query").is_ok() {
        say(
            out,
            b"The file query was here before and asks by an earlier file's stop numbers: make it anew.\n",
        );
    }
}
