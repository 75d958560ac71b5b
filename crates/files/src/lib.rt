// The system's side of every program: reading a file, and how that ended; writing the standard output, and telling where that fails.
#![tactic(auto)]

ghost use Rattle.std.specs.Prelude.{◌≡◌};
ghost use Rattle.files.specs.Counts.{IsPrefixLen};
ghost use Rattle.files.specs.Endings.{goes_on};

use std::cell::Cell;
use std::fmt::Write;
use std::fs::File;
use std::io::{Error, ErrorKind, Print, Read, Stderr, Stdout};
use std::process::ExitCode;
use std::rt::Files;
use std::{fmt, io, str};

// The system's number for a descriptor that is not open.
const NOT_OPEN: i32 = 9;

// What a shell answers for a program that the system's signal ended at a pipe whose reader was gone.
const GONE_STATUS: u8 = 141;

// How the reading of a file ended.
#[derive(Clone, Copy)]
pub enum Ending {
    // There is no file of that name.
    Missing,
    // It cannot be opened, or a read failed, be it part-way.
    Unreadable,
    // All of its bytes were read.
    Whole,
    // The room is full, and the file goes on.
    More,
}

// How many bytes of a file were read, and how that ended.
#[derive(Clone, Copy)]
pub struct Reading {
    pub count: usize,
    pub ending: Ending,
}

// What a program says goes out by this: its standard output, which is written until a write fails, and its standard error.
#[derive(Drop)]
pub struct Output {
    out: Stdout,
    told: Stderr,
    failed: Cell<bool>,
    gone: Cell<bool>,
}

// Reads the file at `path` into `room`. One that is there but cannot be read has no bytes, and is told on standard error by `words` and the reason.
pub fn read_file(
    rt: &impl Files,
    out: &Output,
    path: &[u8],
    words: &[u8],
    room: &mut [u8],
) -> Reading
    ensures { IsPrefixLen result.count room.new }
{
    match open_read(rt, path) {
        Ok(mut file) => read_opened(&mut file, out, words, room),
        Err(error) => Reading {
            count: 0,
            ending: unopened(out, &error, words),
        },
    }
}

// Reads an open file. One whose reading failed has no bytes.
fn read_opened(file: &mut impl Read, out: &Output, words: &[u8], room: &mut [u8]) -> Reading
    ensures { IsPrefixLen result.count room.new }
{
    let (count, failed) = read_part(file, room);
    let ending = ending_of(file, count == room.len(), failed, out, words);
    if matches!(ending, Ending::Unreadable) {
        return Reading { count: 0, ending };
    }
    Reading { count, ending }
}

// Opens the file at `path` for reading. A path is text.
fn open_read<R: Files>(rt: &R, path: &[u8]) -> io::Result<R::File> {
    let Ok(text) = str::from_utf8(path) else {
        return Err(Error::from(ErrorKind::InvalidFilename));
    };
    File::open(rt, text)
}

// Reads until `room` is full, the input ends or a read fails: how many bytes it put at the start of `room`, and why a read failed.
// `while`: no index is counted, a read fills as much as it likes. A pair and no Result, since a read that fails keeps what came before it.
fn read_part(file: &mut impl Read, room: &mut [u8]) -> (usize, Option<Error>)
    ensures { IsPrefixLen result.0 room.new }
{
    let mut done = 0;
    while done < room.len() {
        match file.read(&mut room[done..]) {
            Ok(0) => return (done, None),
            Ok(more) => done += more,
            Err(error) => return (done, Some(error)),
        }
    }
    (done, None)
}

// Reads until `room` is full, the input ends or a read fails, and returns how many bytes it put at the start of `room`.
pub fn read_full(file: &mut impl Read, room: &mut [u8]) -> usize
    ensures { IsPrefixLen result room.new }
{
    let (count, _) = read_part(file, room);
    count
}

// Why a file was not opened.
fn unopened(out: &Output, error: &Error, words: &[u8]) -> Ending {
    if error.kind() == ErrorKind::NotFound {
        return Ending::Missing;
    }
    fail(out, words, error);
    Ending::Unreadable
}

// How a reading ended that filled the room or stopped before, by one read more. A byte behind one that stopped shows that a read failed.
fn ending_of(
    file: &mut impl Read,
    full: bool,
    failed: Option<Error>,
    out: &Output,
    words: &[u8],
) -> Ending {
    let error = match file.read(&mut [0u8; 1]) {
        Ok(0) => return Ending::Whole,
        Ok(_) if full => return Ending::More,
        // a file that grew while it was read stopped for no reason that the system gives
        Ok(_) => failed.unwrap_or(Error::from_raw_os_error(0)),
        Err(error) => error,
    };
    fail(out, words, &error);
    Ending::Unreadable
}

// Whether the file goes on behind what was read.
pub fn goes_on(ending: Ending) -> bool
    ensures { result ≡ goes_on ending }
{
    matches!(ending, Ending::More)
}

// To be called first by a program: tells a standard output that is closed from the start, which the writes pass over.
pub fn open_out(out: Stdout, told: Stderr) -> Output {
    let out = Output {
        out,
        told,
        failed: Cell::new(false),
        gone: Cell::new(false),
    };
    if let Err(error) = out.out.write_some(b"") {
        if error.raw_os_error() == Some(NOT_OPEN) {
            out_failed(&out, &error);
        }
    }
    out
}

// Writes on the standard output.
pub fn write_out(out: &Output, words: &[u8]) {
    write_by(out, |to| to.write_all(words));
}

// Writes a number on the standard output, in decimal.
pub fn write_number(out: &Output, number: usize) {
    write_by(out, |to| to.print(number));
}

// Writes on the standard output by `write`, where no write failed before.
fn write_by<W: FnOnce(Stdout) -> io::Result<()>>(out: &Output, write: W)
    requires { W.IsAlwaysCallable write }
{
    if out.failed.get() {
        return;
    }
    if let Err(error) = write(out.out) {
        out_failed(out, &error);
    }
}

// A failed write is told once: the writes behind it are passed over. A pipe whose reader is gone is not told, and shows in the status.
fn out_failed(out: &Output, error: &Error) {
    out.failed.set(true);
    if error.kind() == ErrorKind::BrokenPipe {
        out.gone.set(true);
        return;
    }
    fail(
        out,
        b"sayurimpak: standard output could not be written",
        error,
    );
}

// The status that a program is to end with: 0, but where its output is a pipe whose reader is gone.
pub fn ended(out: &Output) -> ExitCode {
    if out.gone.get() {
        return ExitCode::from(GONE_STATUS);
    }
    ExitCode::SUCCESS
}

// Writes a line to standard error: what failed, as the caller names it, a colon and the reason.
pub fn fail(out: &Output, what: &[u8], error: &Error) {
    tell(out.told, what);
    tell(out.told, b": ");
    let mut reason = Reason {
        told: out.told,
        ended: false,
    };
    let _ = write!(reason, "{error}");
    tell(out.told, b"\n");
}

// A standard error that cannot be written is passed over.
fn tell(told: Stderr, words: &[u8]) {
    let _ = told.write_all(words);
}

// Writes an error's text to standard error, up to its number.
#[derive(Drop)]
struct Reason {
    told: Stderr,
    ended: bool,
}

impl fmt::Write for Reason {
    fn write_str(&mut self, text: &str) -> fmt::Result {
        if self.ended {
            return Ok(());
        }
        match text.split_once(" (os error") {
            Some((words, _)) => {
                self.ended = true;
                tell(self.told, words.as_bytes());
            }
            None => tell(self.told, text.as_bytes()),
        }
        Ok(())
    }
}
