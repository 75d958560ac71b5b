// Document 02, E2: what a field of `stop_times.txt` says.
#![tactic(auto)]

ghost use Rattle.std.specs.Prelude.{◌≡◌, ◌≤◌, length};
ghost use Rattle.gtfs_fields.specs.Whole.{whole_below};
ghost use Rattle.gtfs_fields.specs.Time.{tail_bytes, tail_minutes, time_within};

const MINUTES_AN_HOUR: usize = 60;

// Minutes and seconds, with the colon ahead of each, are a time's last six bytes.
const TAIL_BYTES: usize = 6;

// A whole number below the limit, of any number of digits: at the limit or past it the value stays, so that it never overflows.
pub fn whole_below(field: &[u8], limit: usize) -> Option<usize>
    requires { limit ≤ 65536 }
    ensures { result ≡ whole_below limit field.now }
{
    if field.is_empty() {
        return None;
    }
    let mut value = 0;
    for &character in field {
        if !character.is_ascii_digit() {
            return None;
        }
        if value < limit {
            value = 10 * value + usize::from(character - b'0');
        }
    }
    (value < limit).then_some(value)
}

// The minutes in the last six bytes of a time: colon, two digits of 00 to 59, colon, 00.
#[tactic(auto, using(std::proofs::lemmas::Bool::Decides::nat_tests), unfolding(crate::specs::Time::tail_minutes, crate::specs::Time::tail_rule, crate::specs::Time::minutes_in))]
fn tail_minutes(tail: &[u8]) -> Option<usize>
    requires { length tail.now ≡ tail_bytes }
    ensures { result ≡ tail_minutes tail.now }
{
    let &[b':', tens, ones, b':', b'0', b'0'] = tail else {
        return None;
    };
    if b'5' < tens || !tens.is_ascii_digit() || !ones.is_ascii_digit() {
        return None;
    }
    Some(10 * usize::from(tens - b'0') + usize::from(ones - b'0'))
}

// A time of at most so many minutes from the service day's start.
pub fn time_within(field: &[u8], most: usize) -> Option<usize>
    requires { most ≤ 65535 }
    ensures { result ≡ time_within most field.now }
{
    if field.len() <= TAIL_BYTES {
        return None;
    }
    let (ahead, ending) = field.split_at(field.len() - TAIL_BYTES);
    let minutes = tail_minutes(ending)?;
    let hours = whole_below(ahead, most / MINUTES_AN_HOUR + 1)?;
    let time = MINUTES_AN_HOUR * hours + minutes;
    (time <= most).then_some(time)
}
