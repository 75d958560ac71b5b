// Refusals 6 and 8: the query, and a journey that is not to be had.
use crate::gate::say_gate;
use explain_words::{say, say_number, say_time};
use files::Output;
use query::{Query, code_rule, gate_rule, margin_rule};

// 6: the first number of the query that breaks its rule, in a file of so many stops whose last minute is `last`.
pub fn print_query_fault(out: &Output, q: Query, stops: usize, last: usize) {
    if stops <= q.source {
        say_no_stop(out, b"source", q.source, stops);
        return;
    }
    if stops <= q.target {
        say_no_stop(out, b"target", q.target, stops);
        return;
    }
    if q.source == q.target {
        say_number(
            out,
            b"Source and target of the query are both stop ",
            q.source,
        );
        say(out, b".\n");
        return;
    }
    print_when_fault(out, q, last);
}

fn say_no_stop(out: &Output, end: &[u8], stop: usize, stops: usize) {
    say(out, b"The query's ");
    say(out, end);
    say_number(out, b" is stop ", stop);
    say_number(out, b", but there are ", stops);
    say(out, b" stops, numbered from 0.\n");
}

// The minute T, or else the bound code q, the margin or the gate time, where the stops keep their rule.
fn print_when_fault(out: &Output, q: Query, last: usize) {
    if last < q.minute {
        say_number(out, b"The query's minute is ", q.minute);
        say_number(out, b", past the last minute of the week, ", last);
        say(out, b".\n");
        return;
    }
    if !code_rule(q) {
        say_number(out, b"The query's bound code is ", q.code);
        say(out, b", but it must be 0 or 4 to 16.\n");
        return;
    }
    if !margin_rule(q) {
        say_number(out, b"The query's margin is ", q.margin);
        say(out, b", but it must be 1 to 2560 ticks.\n");
        return;
    }
    if !gate_rule(q) {
        say_number(out, b"The query's gate time is ", q.gate);
        say(out, b", but it must be 0 to 30 minutes.\n");
        return;
    }
    say(out, b"The query keeps its rule.\n");
}

// 8: no safe journey for the query, whose minute was two bytes.
pub fn print_no_journey(out: &Output, q: Query) {
    say_number(out, b"There is no safe journey from stop ", q.source);
    say_number(out, b" to stop ", q.target);
    if q.minute < 65536 {
        say_time(out, b" from ", q.minute);
    }
    say(out, b" on");
    if 0 < q.gate {
        say_gate(out, b", with gates that close ", q.gate);
    }
    say(out, b".\n");
}
