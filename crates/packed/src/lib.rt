// Stored cases, packed one behind the other: each part is its length, below 65,536 (u32,
// little-endian), and its bytes.
#![tactic(auto)]

ghost use Rattle.std.specs.Prelude.{IfSome, ◌<◌, length};
ghost use Rattle.files.specs.Counts.{IsPrefixLen};

use files::{Output, fail, read_full};
use rooms::sailings_room;
use std::fs::File;
use std::io::Read;
use std::rt::Files;

// No file of stored cases has more.
const MOST_CASES: usize = 1000;

// The length of the next part; none at the end.
fn next_length(file: &mut impl Read) -> Option<usize> {
    let mut bytes = [0u8; 4];
    if read_full(file, &mut bytes) < 4 {
        return None;
    }
    Some(numbers::u16_at(&bytes, 0))
}

// How many bytes the next part has, read into `room`; none where there is no part that fits with a byte to spare.
pub fn read_next(file: &mut impl Read, room: &mut [u8]) -> Option<usize>
    ensures { IfSome result (λ long. IsPrefixLen long room.new × (long < length room.new)) }
{
    let long = next_length(file)?;
    if room.len() <= long {
        return None;
    }
    read_full(file, &mut room[..long]);
    Some(long)
}

// Runs `case` on the stored cases of the file `name`, one by one: on what is behind in the file, its place and its sailings, which are its first part.
pub fn for_each_case<R: Files, C: FnMut(&mut R::File, usize, &[u8])>(
    rt: &R,
    out: &Output,
    name: &str,
    mut case: C,
)
    requires { C.IsAlwaysCallable case }
{
    let mut from = match File::open(rt, name) {
        Ok(from) => from,
        Err(error) => {
            fail(out, name.as_bytes(), &error);
            return;
        }
    };
    for place in 0..MOST_CASES {
        let mut sailings = sailings_room();
        let Some(long) = read_next(&mut from, &mut sailings) else {
            return;
        };
        case(&mut from, place, &sailings[..long]);
    }
}
