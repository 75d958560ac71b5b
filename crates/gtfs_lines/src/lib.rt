// Document 02, E2: the lines of `stop_times.txt`, and where their fields lie.
#![tactic(auto)]

ghost use Rattle.std.specs.Prelude.{◌≡◌, ◌+◌, ◌-◌, ◌≤◌, ℕ, List, length, drop};
ghost use Rattle.std.proofs.Math.Seq.{slice};
ghost use Rattle.gtfs_lines.specs.declared.Span.{Span};
ghost use Rattle.gtfs_lines.specs.Cut.{cut_at, cut_of, heading_of, header_of, kept as kept_span, read_at, with_field, last_end};
ghost use Rattle.gtfs_lines.specs.Marks.{marked_by, plain_ahead};
ghost use Rattle.gtfs_lines.specs.Naming.{found as found_column, with_name};

const LINE_FEED: u8 = b'\n';

const CARRIAGE_RETURN: u8 = b'\r';

const QUOTE_MARK: u8 = b'"';

const COMMA: u8 = b',';

// Where a field lies: from its first byte to the one behind its last.
#[derive(Clone, Copy)]
pub struct Span {
    pub from: usize,
    pub to: usize,
}

impl Span {
    // How many bytes lie there.
    pub fn len(self) -> usize
        requires { self.from ≤ self.to }
        ensures { result ≡ self.to - self.from }
    {
        self.to - self.from
    }

    // The bytes of the text that lie there.
    pub fn text_of(self, text: &[u8]) -> &[u8]
        requires { (self.from ≤ self.to) × (self.to ≤ length text.now) }
        ensures { result.now ≡ slice self.from self.to text.now }
    {
        &text[self.from..self.to]
    }
}

// The columns that are wanted, counted from 1, where the header has one of that name.
#[derive(Clone, Copy)]
pub struct Columns {
    pub trip: Option<usize>,
    pub arrival: Option<usize>,
    pub departure: Option<usize>,
    pub stop: Option<usize>,
    pub sequence: Option<usize>,
}

// The fields of these columns on a line.
#[derive(Clone, Copy)]
pub struct Fields {
    pub trip: Span,
    pub arrival: Span,
    pub departure: Span,
    pub stop: Span,
    pub sequence: Span,
}

// The fields of a line, and where the next line starts.
#[derive(Clone, Copy)]
pub struct Cut {
    pub fields: Fields,
    pub next: usize,
}

// The columns that a header names, and where the next line starts.
#[derive(Clone, Copy)]
pub struct Heading {
    pub columns: Columns,
    pub next: usize,
}

const NO_SPAN: Span = Span { from: 0, to: 0 };

const NO_FIELDS: Fields = Fields {
    trip: NO_SPAN,
    arrival: NO_SPAN,
    departure: NO_SPAN,
    stop: NO_SPAN,
    sequence: NO_SPAN,
};

const NO_COLUMNS: Columns = Columns {
    trip: None,
    arrival: None,
    departure: None,
    stop: None,
    sequence: None,
};

// What is kept of a line's fields, one after the other, and told at the line's end.
trait Reading: Copy {
    type Told;

    ghost kept: { List ℕ → ℕ → Span → Self → Self };

    ghost told: { Self → ℕ → Self.Told };

    // What is kept once the field of this column is read.
    fn keep(self, text: &[u8], column: usize, span: Span) -> Self
        requires { (span.from ≤ span.to) × (span.to ≤ length text.now) }
        ensures { result ≡ kept text.now column span self };

    // What is told once all fields are read, with where the next line starts.
    fn tell(self, next: usize) -> Self::Told
        ensures { result ≡ told self next };
}

// The fields so far of the columns that are wanted.
#[derive(Clone, Copy)]
struct Wanted {
    columns: Columns,
    fields: Fields,
}

impl Reading for Wanted {
    type Told = Cut;

    ghost kept = { λ text column span wanted.
        record { columns = wanted.columns; fields = with_field wanted.columns column span wanted.fields } };

    ghost told = { λ wanted next. cut_of wanted.fields next };

    fn keep(self, _text: &[u8], column: usize, span: Span) -> Wanted {
        Wanted {
            columns: self.columns,
            fields: with_field(self.columns, column, span, self.fields),
        }
    }

    fn tell(self, next: usize) -> Cut {
        Cut {
            fields: self.fields,
            next,
        }
    }
}

impl Reading for Columns {
    type Told = Heading;

    ghost kept = { λ text column span columns. with_name (slice span.from span.to text) column columns };

    ghost told = { heading_of };

    // inlined, as `with_name` is: else each field of a header has all columns copied
    #[inline(always)]
    fn keep(self, text: &[u8], column: usize, span: Span) -> Columns {
        with_name(text, span, column, self)
    }

    fn tell(self, next: usize) -> Heading {
        Heading {
            columns: self,
            next,
        }
    }
}

// The line that starts at `start`, unless a quote mark stands in it.
pub fn line_at(text: &[u8], start: usize, columns: Columns) -> Option<Cut>
    requires { start ≤ length text.now }
    ensures { result ≡ cut_at text.now columns start }
{
    let wanted = Wanted {
        columns,
        fields: NO_FIELDS,
    };
    read_at(text, start, wanted)
}

// The columns of the header, which starts at byte 0, unless a quote mark stands in it.
pub fn header_columns(text: &[u8]) -> Option<Heading>
    ensures { result ≡ header_of text.now }
{
    read_at(text, 0, NO_COLUMNS)
}

// What is told of the line that starts at `start`, unless a quote mark stands in it.
fn read_at<R: Reading>(text: &[u8], start: usize, none: R) -> Option<R::Told>
    requires { start ≤ length text.now }
    ensures { result ≡ read_at R.told (R.kept text.now) text.now start none }
{
    let mut read = none;
    let mut column = 1;
    let mut from = start;
    let mut at = mark_from(text, from);
    // `while`: no index is counted, the text is walked from mark to mark.
    while at < text.len() {
        let byte = text[at];
        let next = at + 1;
        if byte == LINE_FEED {
            let to = last_end(text, from, at);
            return Some(read.keep(text, column, Span { from, to }).tell(next));
        }
        if byte == QUOTE_MARK {
            return None;
        }
        read = read.keep(text, column, Span { from, to: at });
        column += 1;
        from = next;
        at = mark_from(text, from);
    }
    Some(read.keep(text, column, Span { from, to: at }).tell(at))
}

// The first byte from `from` on that is an LF, a quote mark or a comma, or the text's end.
fn mark_from(text: &[u8], from: usize) -> usize
    requires { from ≤ length text.now }
    ensures { result ≡ from + plain_ahead (drop from text.now) }
{
    for at in from..text.len() {
        let byte = text[at];
        if byte <= COMMA && is_mark(byte) {
            return at;
        }
    }
    text.len()
}

// A byte at which a field ends or its line is refused.
#[tactic(auto, using(std::proofs::lemmas::Bool::Decides::nat_tests))]
fn is_mark(byte: u8) -> bool
    ensures { result ≡ marked_by byte }
{
    matches!(byte, COMMA | LINE_FEED | QUOTE_MARK)
}

// Where the last field of a line ends whose LF stands at `at`: a CR ahead of it belongs to the end.
#[tactic(auto, using(std::proofs::lemmas::Bool::Decides::nat_tests), unfolding(crate::specs::Cut::last_end))]
fn last_end(text: &[u8], from: usize, at: usize) -> usize
    requires { at ≤ length text.now }
    ensures { result ≡ last_end text.now from at }
{
    if from < at && text[at - 1] == CARRIAGE_RETURN {
        at - 1
    } else {
        at
    }
}

// The fields with that of `column`, where it is wanted.
fn with_field(columns: Columns, column: usize, span: Span, fields: Fields) -> Fields
    ensures { result ≡ with_field columns column span fields }
{
    Fields {
        trip: kept(columns.trip, column, fields.trip, span),
        arrival: kept(columns.arrival, column, fields.arrival, span),
        departure: kept(columns.departure, column, fields.departure, span),
        stop: kept(columns.stop, column, fields.stop, span),
        sequence: kept(columns.sequence, column, fields.sequence, span),
    }
}

// The new field where its column is the wanted one.
fn kept(wanted: Option<usize>, column: usize, old: Span, new: Span) -> Span
    ensures { result ≡ kept_span wanted column old new }
{
    if wanted == Some(column) { new } else { old }
}

// The columns with this one, where it has a name that none before it had.
#[inline(always)]
fn with_name(text: &[u8], span: Span, column: usize, columns: Columns) -> Columns
    requires { (span.from ≤ span.to) × (span.to ≤ length text.now) }
    ensures { result ≡ with_name (slice span.from span.to text.now) column columns }
{
    let field = span.text_of(text);
    Columns {
        trip: found(field, b"trip_id", column, columns.trip),
        arrival: found(field, b"arrival_time", column, columns.arrival),
        departure: found(field, b"departure_time", column, columns.departure),
        stop: found(field, b"stop_id", column, columns.stop),
        sequence: found(field, b"stop_sequence", column, columns.sequence),
    }
}

// Of a column that stands twice the first counts.
fn found(field: &[u8], name: &[u8], column: usize, before: Option<usize>) -> Option<usize>
    ensures { result ≡ found_column field.now name.now column before }
{
    match before {
        Some(_) => before,
        None => (field == name).then_some(column),
    }
}
