// Document 01, "The sailing file": a row, and what its numbers are held to.
#![tactic(auto)]

ghost use Rattle.std.specs.Prelude.{not, ◌≡◌, ltb, leb, eqb};
ghost use Rattle.std.proofs.Math.Option.{some};
ghost use Rattle.timetable.specs.Limits.{most_trips};
ghost use Rattle.timetable.specs.Rows.{own_rule, follows as follows_row};

// One sailing or bus hop: the six numbers of a row, in the file's order.
#[derive(Clone, Copy)]
pub struct Row {
    pub board: usize,
    pub land: usize,
    pub departure: usize,
    pub arrival: usize,
    pub trip: usize,
    pub class: usize,
}

// Stops S, classes K and the last minute that a row may name.
#[derive(Clone, Copy)]
pub struct Ranges {
    pub stops: usize,
    pub classes: usize,
    pub lastminute: usize,
}

// A refusal by its number in documents 01 and 02, and the place that it speaks of.
#[derive(Clone, Copy)]
pub struct Refusal<N> {
    pub number: N,
    pub place: N,
}

// S is 2 to 200, n is 0 to 2,000, K is 1 to 16; a trip is below 2,000.
pub const FEWEST_STOPS: usize = 2;

pub const MOST_STOPS: usize = 200;

pub const MOST_ROWS: usize = 2000;

pub const FEWEST_CLASSES: usize = 1;

pub const MOST_CLASSES: usize = 16;

pub const MOST_TRIPS: usize = 2000;

// A share counts 4,096ths.
pub const SHARE_TOTAL: usize = 4096;

// The rule of a row about itself alone.
#[tactic(auto, unfolding(crate::specs::Rows::own_rule))]
pub fn own_rule(row: Row, g: Ranges) -> bool
    ensures { result ≡ own_rule g row }
{
    stop_rule(row.board, g)
        && stop_rule(row.land, g)
        && stops_differ(row)
        && onward(row)
        && minute_rule(row.departure, g)
        && minute_rule(row.arrival, g)
        && trip_rule(row)
        && class_rule(row, g)
}

// Boarding and landing stop: each is below S.
pub fn stop_rule(stop: usize, g: Ranges) -> bool
    ensures { result ≡ ltb stop g.stops }
{
    stop < g.stops
}

// The two stops differ.
pub fn stops_differ(row: Row) -> bool
    ensures { result ≡ not (eqb row.board row.land) }
{
    row.board != row.land
}

// Departure is less than arrival.
pub fn onward(row: Row) -> bool
    ensures { result ≡ ltb row.departure row.arrival }
{
    row.departure < row.arrival
}

// Departure and arrival: neither is past the last minute.
pub fn minute_rule(minute: usize, g: Ranges) -> bool
    ensures { result ≡ leb minute g.lastminute }
{
    minute <= g.lastminute
}

// The trip is below 2,000.
pub fn trip_rule(row: Row) -> bool
    ensures { result ≡ ltb row.trip most_trips }
{
    row.trip < MOST_TRIPS
}

// The class is below K.
fn class_rule(row: Row, g: Ranges) -> bool
    ensures { result ≡ ltb row.class g.classes }
{
    row.class < g.classes
}

// A row departs no earlier than the row ahead of it, which departs at `departure`.
pub fn departure_rule(departure: usize, row: Row) -> bool
    ensures { result ≡ leb departure row.departure }
{
    departure <= row.departure
}

// Whether a row may come behind `previous`, the nearest earlier row of its trip.
#[tactic(auto, unfolding(crate::specs::Rows::follows))]
pub fn follows(previous: Row, row: Row) -> bool
    ensures { result ≡ follows_row (some previous) row }
{
    lands_there(previous, row) && previous.arrival <= row.departure
}

// `previous` lands at the row's boarding stop.
pub fn lands_there(previous: Row, row: Row) -> bool
    ensures { result ≡ eqb previous.land row.board }
{
    previous.land == row.board
}
