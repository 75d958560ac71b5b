// When gates close.
ghost use Rattle.std.specs.Prelude.{◌≡◌, ◌-◌};

use explain_words::{say, say_count};
use files::Output;

// Words, then how long before each departure.
pub fn say_gate(out: &Output, words: &[u8], gate: usize) {
    say_count(out, words, gate, b" minute", b" minutes");
    say(out, b" before departure");
}

// The last minute at which one who lands is let aboard; 0 where the gate closes before the first.
pub fn closing(departure: usize, gate: usize) -> usize
    ensures { result ≡ departure - gate }
{
    departure.saturating_sub(gate)
}
