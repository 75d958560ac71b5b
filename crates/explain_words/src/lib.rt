// For the office: words, numbers and times on the standard output.
#![tactic(auto)]

ghost use Rattle.std.specs.Prelude.{◌<◌};

use clock::Minute;
use files::{Output, write_number, write_out};

pub fn say(out: &Output, words: &[u8]) {
    write_out(out, words);
}

// Words, then a number.
pub fn say_number(out: &Output, words: &[u8], number: usize) {
    say(out, words);
    write_number(out, number);
}

// Words, then a number and the thing that it counts, which has a form for 1 and one for all others.
pub fn say_count(out: &Output, words: &[u8], count: usize, one: &[u8], many: &[u8]) {
    say_number(out, words, count);
    say(out, if count == 1 { one } else { many });
}

// Words, then a time. The minute fits, so that `try_from` would only be unwrapped.
pub fn say_time(out: &Output, words: &[u8], minute: usize)
    requires { minute < 4294967296 }
{
    say(out, words);
    let time = Minute {
        minute: minute as u32,
    };
    say_clock(out, time);
}

// Words, then an expected arrival, rounded up to a minute.
pub fn say_expected(out: &Output, words: &[u8], ticks: u32) {
    say(out, words);
    say_clock(out, Minute::of_ticks(ticks));
}

fn say_clock(out: &Output, time: Minute) {
    let text = time.time_text();
    say(out, &text.bytes[text.start..]);
}
