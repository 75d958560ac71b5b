// Numbers in and out: bytes, cells of a lent slice, and the widths between which they are cast.
#![tactic(auto)]

ghost use Rattle.std.specs.Prelude.{◌≡◌, ◌+◌, ◌*◌, ◌≤◌, ◌<◌, length, take};
ghost use Rattle.std.proofs.lemmas.List.Edits.{sets};
ghost use Rattle.numbers.specs.Numbers.{u16_at, u32_at, u16_bytes, u32_bytes};
ghost use Rattle.numbers.specs.Bytes.{bytes_of};
ghost use Rattle.numbers.specs.Over.{over};

// A cell as a number that can be an index; the library has no `From` between these two.
pub fn number(cell: u32) -> usize
    ensures { (result ≡ cell) × (result < 4294967296) }
{
    cell as usize
}

// A number as a cell. It fits, so that `try_from` would be no plainer: its answer would be unwrapped.
pub fn cell(x: usize) -> u32
    requires { x < 4294967296 }
    ensures { result ≡ x }
{
    x as u32
}

// A cell as a number of 64 bits.
pub fn long(x: u32) -> u64
    ensures { (result ≡ x) × (result < 4294967296) }
{
    u64::from(x)
}

// A number of 64 bits as a cell. It fits, as for `cell`.
pub fn short(value: u64) -> u32
    requires { value < 4294967296 }
    ensures { result ≡ value }
{
    value as u32
}

// The number of two bytes at `at`.
#[tactic(auto, unfolding(crate::specs::Numbers::u16_at))]
pub fn u16_at(bytes: &[u8], at: usize) -> usize
    requires { at + 1 < length bytes.now }
    ensures { (result ≡ u16_at bytes.now at) × (result < 65536) }
{
    usize::from(u16::from_le_bytes([bytes[at], bytes[at + 1]]))
}

// The number of four bytes at `at`.
#[tactic(auto, unfolding(crate::specs::Numbers::u16_at, crate::specs::Numbers::u32_at))]
pub fn u32_at(bytes: &[u8], at: usize) -> usize
    requires { at + 3 < length bytes.now }
    ensures { (result ≡ u32_at bytes.now at) × (result < 4294967296) }
{
    let four = [bytes[at], bytes[at + 1], bytes[at + 2], bytes[at + 3]];
    number(u32::from_le_bytes(four))
}

// The first `count` numbers as bytes, four each, from the first byte of `out` on; other bytes stay.
#[tactic(auto, using(crate::proofs::Put::put_none))]
pub fn put_numbers(numbers: &[u32], count: usize, out: &mut [u8])
    requires { (count ≤ length numbers.now) × (4 * count ≤ length out.old) }
    ensures { out.new ≡ over (bytes_of (take count numbers.now)) out.old }
{
    for (i, x) in numbers[..count].iter().enumerate() {
        let next = number(*x);
        put_u32(next, 4 * i, out);
    }
}

// The low two bytes of a number at byte `at`, the lower first.
#[tactic(auto, unfolding(crate::specs::Numbers::u16_bytes))]
pub fn put_u16(number: usize, at: usize, out: &mut [u8])
    requires { at + 2 ≤ length out.old }
    ensures { out.new ≡ sets out.old at (u16_bytes number) }
{
    let low = (number % 65536) as u16;
    out[at..at + 2].copy_from_slice(&low.to_le_bytes());
}

// The low four bytes of a number at byte `at`, the lowest first.
pub fn put_u32(number: usize, at: usize, out: &mut [u8])
    requires { at + 4 ≤ length out.old }
    ensures { out.new ≡ sets out.old at (u32_bytes number) }
{
    let low = (number % 4294967296) as u32;
    out[at..at + 4].copy_from_slice(&low.to_le_bytes());
}
