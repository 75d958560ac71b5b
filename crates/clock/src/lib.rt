// Document 01, "The sheet": a clock minute, and how it prints.
#![tactic(auto)]

ghost use Rattle.std.specs.Prelude.{◌≡◌, ◌++◌, replicate};
ghost use Rattle.clock.specs.Clock.{day_of, day_start, hour_of, minute_of_hour, rounded_up, since_midnight};
ghost use Rattle.clock.specs.Text.{blank, face_text, Printed};

use text::{digit, put_ahead};

// Minutes from local midnight opening day 1.
#[derive(Clone, Copy)]
pub struct Minute {
    pub minute: u32,
}

// The text of a time: it stands from `start` to the end of the bytes. Memory is fixed, so its room has the width of the longest.
#[derive(Drop)]
pub struct TimeText {
    pub bytes: [u8; 14],
    pub start: usize,
}

// A day by its number, from 1, and the minute at which it starts.
#[derive(Clone, Copy)]
struct Day {
    number: u32,
    start: u32,
}

impl Minute {
    // Every day has 1,440 minutes.
    pub const DAY: u32 = 1440;

    // Ticks of 1/256 minute, rounded up to a minute.
    #[tactic(auto, unfolding(crate::specs::Clock::rounded_up))]
    pub fn of_ticks(ticks: u32) -> Minute
        ensures { result.minute ≡ rounded_up ticks }
    {
        Minute {
            minute: ticks.div_ceil(256),
        }
    }

    // The day that this minute is in: nothing else knows where a day starts.
    #[tactic(auto, unfolding(crate::specs::Clock::day_of, crate::specs::Clock::day_start))]
    fn held_by(self) -> Day
        ensures { (result.number ≡ day_of self.minute) × (result.start ≡ day_start (day_of self.minute)) }
    {
        let before = self.minute / Minute::DAY;
        Day {
            number: before + 1,
            start: before * Minute::DAY,
        }
    }

    // Minutes since the midnight that opened the day.
    #[tactic(auto, using(crate::proofs::Days::day_started), unfolding(crate::specs::Clock::since_midnight))]
    fn since_midnight(self) -> u32
        ensures { result ≡ since_midnight self.minute }
    {
        let day = self.held_by();
        self.minute - day.start
    }

    // The day, from 1.
    fn day(self) -> u32
        ensures { result ≡ day_of self.minute }
    {
        let day = self.held_by();
        day.number
    }

    // The hour of the day.
    #[tactic(auto, unfolding(crate::specs::Clock::hour_of))]
    fn hour(self) -> u32
        ensures { result ≡ hour_of self.minute }
    {
        self.since_midnight() / 60
    }

    // The minute of the hour.
    #[tactic(auto, unfolding(crate::specs::Clock::minute_of_hour))]
    fn minute_of_hour(self) -> u32
        ensures { result ≡ minute_of_hour self.minute }
    {
        self.since_midnight() % 60
    }

    // The time as the sheet prints it.
    pub fn time_text(self) -> TimeText
        ensures { Printed self.minute result }
    {
        let mut bytes = self.face();
        let start = put_ahead(&mut bytes, 8, self.day() as usize) - 1;
        bytes[start] = b'd';
        TimeText { bytes, start }
    }

    // Hours and minutes in two digits each, at the end of the bytes.
    #[tactic(auto, using(crate::proofs::Days::hour_below, crate::proofs::Days::minute_below), unfolding(crate::specs::Text::face_text))]
    fn face(self) -> [u8; 14]
        ensures { result ≡ replicate 8 blank ++ face_text self.minute }
    {
        let hour = self.hour();
        let minute = self.minute_of_hour();
        let mut bytes = [b' '; 14];
        bytes[9] = digit(hour / 10);
        bytes[10] = digit(hour % 10);
        bytes[11] = b':';
        bytes[12] = digit(minute / 10);
        bytes[13] = digit(minute % 10);
        bytes
    }
}
