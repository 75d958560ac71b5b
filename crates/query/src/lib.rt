// Document 01, "Rides, safe journeys, plans" and "The sheet", and document 02, E1 and E3: what is asked of a plan, its bytes and its rule.
#![tactic(auto)]

ghost use Rattle.std.specs.Prelude.{◌≡◌, ◌≤◌, length};
ghost use Rattle.query.specs.Query.{code_rule, four_numbers, gate_rule, journey_rule, margin_rule, plain_query, query_bytes, query_in, query_rule, with_code, with_gate, with_margin};

use numbers::{number, u16_at};

// Source, target, minute T, bound code q, margin and gate time.
#[derive(Clone, Copy)]
pub struct Query {
    pub source: usize,
    pub target: usize,
    pub minute: usize,
    pub code: usize,
    pub margin: usize,
    pub gate: usize,
}

// The bound code counts quarters, from 4 to 16.
pub const FEWEST_QUARTERS: usize = 4;

pub const MOST_QUARTERS: usize = 16;

// The margin between chosen rows, in ticks. The least is document 01's rule.
pub const LEAST_MARGIN: usize = 1;

pub const MOST_MARGIN: usize = 2560;

// Gates close so many minutes before departure, at the most.
pub const MOST_GATE: usize = 30;

// A query is four u16, five that end with its margin, or six that end with its gate time.
pub const QUERY_BYTES: usize = 8;

pub const MARGIN_BYTES: usize = 10;

pub const GATE_BYTES: usize = 12;

// The query that a host's six numbers ask.
pub fn query_of(source: u32, target: u32, minute: u32, code: u32, margin: u32, gate: u32) -> Query
    ensures { result ≡ with_gate gate (with_margin margin (with_code code (plain_query source target minute))) }
{
    Query {
        source: number(source),
        target: number(target),
        minute: number(minute),
        code: number(code),
        margin: number(margin),
        gate: number(gate),
    }
}

// The query in its bytes; bytes of any other length ask from a stop to itself.
#[tactic(auto, unfolding(crate::specs::Query::query_in))]
pub fn query_in(bytes: &[u8]) -> Query
    ensures { result ≡ query_in bytes.now }
{
    match bytes.len() {
        QUERY_BYTES => read_with(bytes, LEAST_MARGIN, 0),
        MARGIN_BYTES => read_with(bytes, u16_at(bytes, QUERY_BYTES), 0),
        GATE_BYTES => read_with(
            bytes,
            u16_at(bytes, QUERY_BYTES),
            u16_at(bytes, MARGIN_BYTES),
        ),
        _ => Query {
            source: 0,
            target: 0,
            minute: 0,
            code: 0,
            margin: LEAST_MARGIN,
            gate: 0,
        },
    }
}

// The four numbers that every query has, with a margin and a gate time.
fn read_with(bytes: &[u8], margin: usize, gate: usize) -> Query
    requires { query_bytes ≤ length bytes.now }
    ensures { result ≡ with_gate gate (with_margin margin (four_numbers bytes.now)) }
{
    Query {
        source: u16_at(bytes, 0),
        target: u16_at(bytes, 2),
        minute: u16_at(bytes, 4),
        code: u16_at(bytes, 6),
        margin,
        gate,
    }
}

// The rule of a query in a file of so many stops, whose last minute is `last`.
#[tactic(auto, unfolding(crate::specs::Query::query_rule))]
pub fn query_rule(q: Query, stops: usize, last: usize) -> bool
    ensures { result ≡ query_rule stops last q }
{
    journey_rule(q, stops, last) && code_rule(q) && margin_rule(q) && gate_rule(q)
}

// Two stops of the file that differ, and a minute that is not past the last.
#[tactic(auto, unfolding(crate::specs::Query::journey_rule))]
fn journey_rule(q: Query, stops: usize, last: usize) -> bool
    ensures { result ≡ journey_rule stops last q }
{
    q.source < stops && q.target < stops && q.source != q.target && q.minute <= last
}

// The bound code is 0 or 4 to 16.
#[tactic(auto, unfolding(crate::specs::Query::code_rule))]
pub fn code_rule(q: Query) -> bool
    ensures { result ≡ code_rule q }
{
    q.code == 0 || (FEWEST_QUARTERS..=MOST_QUARTERS).contains(&q.code)
}

// The margin is 1 to 2,560.
#[tactic(auto, unfolding(crate::specs::Query::margin_rule))]
pub fn margin_rule(q: Query) -> bool
    ensures { result ≡ margin_rule q }
{
    (LEAST_MARGIN..=MOST_MARGIN).contains(&q.margin)
}

// The gate time is 0 to 30.
#[tactic(auto, unfolding(crate::specs::Query::gate_rule))]
pub fn gate_rule(q: Query) -> bool
    ensures { result ≡ gate_rule q }
{
    q.gate <= MOST_GATE
}
