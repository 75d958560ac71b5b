// Decimal numbers and other texts, put into lent bytes one behind the other.
#![tactic(auto)]

ghost use Rattle.std.specs.Prelude.{[], ◌∷◌, ◌≡◌, ◌+◌, ◌-◌, ◌^◌, ◌≤◌, ◌<◌, length, drop};
ghost use Rattle.text.specs.Decimal.{digit_of, number_text};
ghost use Rattle.text.specs.Put.{Ahead, Put, number_width};

// The character of a digit.
pub fn digit(number: u32) -> u8
    requires { number < 10 }
    ensures { result ≡ digit_of number }
{
    (48 + number) as u8
}

// The digits of a number, none for 0, written ahead of `at` from the last to the first; where they start.
pub fn put_ahead(out: &mut [u8], at: usize, number: usize) -> usize
    requires { (number < 10 ^ at) × (at ≤ length out.old) }
    ensures { Ahead out.old at number out.new result }
{
    let mut start = at;
    let mut left = number;
    // no range to loop over: how many digits there are shows only where none is left
    while left > 0 {
        start -= 1;
        out[start] = digit((left % 10) as u32);
        left /= 10;
    }
    start
}

// One character at `at`; where the next one goes.
pub fn put_byte(out: &mut [u8], at: usize, byte: u8) -> usize
    requires { at < length out.old }
    ensures { Put out.old at (byte ∷ []) out.new result × (result ≡ at + 1) }
{
    out[at] = byte;
    at + 1
}

// The text from `from` on, written from `at` on; where the next one goes.
pub fn put_text(out: &mut [u8], at: usize, text: &[u8], from: usize) -> usize
    requires { (from ≤ length text.now) × (at + (length text.now - from) ≤ length out.old) }
    ensures { Put out.old at
        (drop from text.now)
        out.new result × (result ≡ at + (length text.now - from)) }
{
    let part = &text[from..];
    let next = at + part.len();
    out[at..next].copy_from_slice(part);
    next
}

// A number in decimal at `at`; where the next text goes.
pub fn put_number(out: &mut [u8], at: usize, n: usize) -> usize
    requires { at + number_width ≤ length out.old }
    ensures { Put out.old at (number_text n) out.new result × (result ≤ at + number_width) }
{
    let mut text = [b'0'; 20];
    text[19] = digit((n % 10) as u32);
    let start = put_ahead(&mut text, 19, n / 10);
    put_text(out, at, &text, start)
}
