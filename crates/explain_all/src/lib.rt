// For the office: what the sheet's two files come to, in words.
#![tactic(auto)]

ghost use Rattle.std.specs.Prelude.{Ok, ◌≡◌};
ghost use Rattle.file_layout.specs.Check.{checked_as};
ghost use Rattle.query.specs.Query.{QueryFits};
ghost use Rattle.plan_rows.specs.Sections.{Plannable};

use explain_faults::print_file_fault;
use explain_plan::{print_no_journey, print_plan, print_query_fault};
use explain_starts::print_starts;
use explain_words::{say, say_count, say_expected, say_number, say_time};
use file_check::check_as;
use file_layout::{Format, Trailer, VERSION_ONE};
use files::{Ending, Output, goes_on};
use numbers::number;
use plan_whole::Plan;
use planner::plan_checked;
use query::{GATE_BYTES, LEAST_MARGIN, MARGIN_BYTES, QUERY_BYTES, Query, query_in};
use rooms::{plan_room, work_room};
use timetable::Refusal;

// Says why the two files are refused and what to look at, or S, n, K and the plan. Behind each file's bytes stands how its reading ended.
pub fn explain(
    out: &Output,
    sailings: &[u8],
    sailings_end: Ending,
    query: &[u8],
    query_end: Ending,
) {
    explain_as(out, sailings, sailings_end, VERSION_ONE, query, query_end);
}

// The same for a file of a version.
fn explain_as(
    out: &Output,
    sailings: &[u8],
    sailings_end: Ending,
    f: Format,
    query: &[u8],
    query_end: Ending,
)
    requires { Plannable f }
{
    match check_as(sailings, f) {
        Err(refusal) => {
            say_refused(out, refusal.number);
            explain_file(out, sailings, f, sailings_end, refusal);
        }
        Ok(trailer) => {
            say_sound(out, trailer);
            explain_query(out, sailings, f, trailer, query, query_end);
        }
    }
}

// A file that the check refuses.
fn explain_file(out: &Output, sailings: &[u8], f: Format, ending: Ending, refusal: Refusal<usize>)
    requires { Plannable f }
{
    if sailings.is_empty() {
        say_no_bytes(out, b"sailings", ending);
        return;
    }
    print_file_fault(out, sailings, f, refusal, goes_on(ending));
}

// Why there are no bytes of the file of that name.
fn say_no_bytes(out: &Output, name: &[u8], ending: Ending) {
    match ending {
        Ending::Missing => say_named(out, b"There is no file ", name, b" in this folder.\n"),
        Ending::Unreadable => say_named(out, b"The file ", name, b" cannot be read.\n"),
        _ => say_named(out, b"The file ", name, b" is empty.\n"),
    }
}

fn say_named(out: &Output, before: &[u8], name: &[u8], behind: &[u8]) {
    say(out, before);
    say(out, name);
    say(out, behind);
}

fn say_refused(out: &Output, refusal: usize) {
    say_number(out, b"refused ", refusal);
    say(out, b"\n");
}

fn say_sound(out: &Output, trailer: Trailer) {
    say_number(out, b"The file is sound. Stops: ", trailer.stops);
    say_number(out, b". Rows: ", trailer.rows);
    say_number(out, b". Classes: ", trailer.classes);
    say(out, b".\n");
}

// A sound file goes on to planning.
fn explain_query(
    out: &Output,
    sailings: &[u8],
    f: Format,
    trailer: Trailer,
    query: &[u8],
    ending: Ending,
)
    requires { Plannable f × (checked_as f sailings.now ≡ Ok trailer) }
{
    let q = query_in(query);
    let mut work = work_room();
    let mut rides = plan_room();
    match plan_checked(sailings, f, trailer, q, &mut work, &mut rides) {
        Err(refusal) => {
            let refusal = number(refusal.number);
            explain_refusal(out, sailings, f, trailer, query, ending, q, refusal);
        }
        Ok(plan) => {
            say_plan(out, plan);
            say_margin(out, q.margin);
            print_plan(
                out,
                sailings,
                f,
                trailer,
                &rides,
                number(plan.rides),
                q.gate,
            );
        }
    }
}

// Room is lent in full, so planning refuses the query or finds no safe journey.
fn explain_refusal(
    out: &Output,
    sailings: &[u8],
    f: Format,
    trailer: Trailer,
    query: &[u8],
    ending: Ending,
    q: Query,
    refusal: usize,
)
    requires { Plannable f × (checked_as f sailings.now ≡ Ok trailer) × (refusal ≡ 8 → QueryFits trailer.stops f.lastminute q) }
{
    say_refused(out, refusal);
    if refusal == 8 {
        print_no_journey(out, q);
        print_starts(out, sailings, f, trailer, q);
        return;
    }
    if !is_query_length(query.len()) {
        say_query_length(out, query, ending);
        return;
    }
    print_query_fault(out, q, trailer.stops, f.lastminute);
}

// A query has 8 bytes, or 10 with its margin, or 12 with its gate time too.
fn is_query_length(bytes: usize) -> bool {
    matches!(bytes, QUERY_BYTES | MARGIN_BYTES | GATE_BYTES)
}

// 6: the query is not as long as one.
fn say_query_length(out: &Output, query: &[u8], ending: Ending) {
    if query.is_empty() {
        say_no_bytes(out, b"query", ending);
        return;
    }
    say(out, b"The query has ");
    if goes_on(ending) {
        say(out, b"at least ");
    }
    say_count(out, b"", query.len(), b" byte", b" bytes");
    say_number(out, b", not ", QUERY_BYTES);
    say_number(out, b", ", MARGIN_BYTES);
    say_number(out, b" or ", GATE_BYTES);
    say(out, b".\n");
}

fn say_plan(out: &Output, plan: Plan) {
    say_number(out, b"Rides in the plan: ", number(plan.rides));
    say_expected(out, b". Expected arrival: ", plan.expected);
    say_time(out, b". Latest: ", number(plan.latest));
    say(out, b".\n");
}

// What a margin above the least leaves out.
fn say_margin(out: &Output, margin: usize) {
    if margin <= LEAST_MARGIN {
        return;
    }
    say_number(out, b"Margin: ", margin);
    say(
        out,
        b" ticks. Of two rides from one stop the earlier is expected to arrive at least that much sooner.\n",
    );
}
