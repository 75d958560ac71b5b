// Document 02, E2: ids, numbered by first appearance and found through a table.
// The table stands in lent memory, as this project allocates none: cells of one slice, where a cell that names an id has its number and one, and 0 is none.
#![tactic(auto)]

ghost use Rattle.std.specs.Prelude.{◌≡◌, ◌+◌, ◌≤◌, ◌<◌, length, get_or};
ghost use Rattle.gtfs_ids.specs.Ids.{longest_id};
ghost use Rattle.gtfs_ids.specs.Keys.{packed, key_of, buckets, bucket_of};
ghost use Rattle.gtfs_ids.specs.Book.{Chained, book_with, cell_of, key_in, key_number, keys_in, place_in};

// An id's bytes as two numbers, and how many bytes it has.
#[derive(Clone, Copy, PartialEq, Eq)]
pub struct Key {
    pub front: u64,
    pub back: u64,
    pub size: u64,
}

// The buckets of a book.
pub const BUCKETS: usize = 1021;

// The cells of an id in a book: its key's three numbers, where it lies in the text, and the id before it in its bucket.
pub const CELLS: usize = 5;

const FRONT: usize = 0;

const BACK: usize = 1;

const SIZE: usize = 2;

const PLACE: usize = 3;

const EARLIER: usize = 4;

// An id of at most 16 bytes as its key.
pub fn key_of(id: &[u8]) -> Key
    requires { length id.now ≤ longest_id }
    ensures { result ≡ key_of id.now }
{
    let (front, back) = id.split_at(id.len().min(8));
    Key {
        front: packed_bytes(front),
        back: packed_bytes(back),
        size: id.len() as u64,
    }
}

// At most eight bytes as one number, the first counting most.
fn packed_bytes(bytes: &[u8]) -> u64
    requires { length bytes.now ≤ 8 }
    ensures { result ≡ packed bytes.now }
{
    let mut worth = 0;
    for &byte in bytes {
        worth = 256 * worth + u64::from(byte);
    }
    worth
}

// The bucket among whose ids a key is looked for.
#[tactic(auto, unfolding(crate::specs::Keys::bucket_of))]
fn bucket_of(key: Key) -> usize
    ensures { (result ≡ bucket_of key) × (result < buckets) }
{
    let width = BUCKETS as u64;
    ((256 * (key.front % width) + key.back % width) % width) as usize
}

// A key's number among the first `count`; that of a new one is `count`. `while`: no index is counted, a cell names the next id.
pub fn number_of(book: &[u64], count: usize, key: Key) -> usize
    requires { Chained book.now count × (count < 65536) }
    ensures { result ≡ key_number (keys_in book.now count) key }
{
    let mut named = book[bucket_of(key)] as usize;
    while named > 0 {
        let i = named - 1;
        if key_at(book, i) == key {
            return i;
        }
        named = cell_at(book, i, EARLIER) as usize;
    }
    count
}

// One of the cells of id `i`.
fn cell_at(book: &[u64], i: usize, part: usize) -> u64
    requires { (part < 5) × (cell_of i + 5 ≤ length book.now) × (i < 65536) }
    ensures { result ≡ get_or book.now (cell_of i + part) 0 }
{
    book[BUCKETS + CELLS * i + part]
}

// The key of id `i`.
#[tactic(auto, unfolding(crate::specs::Book::key_in))]
fn key_at(book: &[u64], i: usize) -> Key
    requires { (cell_of i + 5 ≤ length book.now) × (i < 65536) }
    ensures { result ≡ key_in book.now i }
{
    Key {
        front: cell_at(book, i, FRONT),
        back: cell_at(book, i, BACK),
        size: cell_at(book, i, SIZE),
    }
}

// Writes one id more into the book: the next number is its own.
pub fn add(book: &mut [u64], count: usize, key: Key, place: usize)
    requires { (cell_of count + 5 ≤ length book.old) × (count < 65536) }
    ensures { book.new ≡ book_with book.old count key place }
{
    let at = BUCKETS + CELLS * count;
    let bucket = bucket_of(key);
    let earlier = book[bucket];
    book[at..at + CELLS].copy_from_slice(&[key.front, key.back, key.size, place as u64, earlier]);
    book[bucket] = (count + 1) as u64;
}

// Where an id lies in the text.
#[tactic(auto, unfolding(crate::specs::Book::place_in))]
pub fn place_of(book: &[u64], i: usize) -> u64
    requires { (cell_of i + 5 ≤ length book.now) × (i < 65536) }
    ensures { result ≡ place_in book.now i }
{
    cell_at(book, i, PLACE)
}

// How many bytes an id has.
pub fn size_of(book: &[u64], i: usize) -> u64
    requires { (cell_of i + 5 ≤ length book.now) × (i < 65536) }
    ensures { result ≡ (key_in book.now i).size }
{
    key_at(book, i).size
}
