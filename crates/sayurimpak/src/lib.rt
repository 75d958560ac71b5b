// Document 01, "Numbers returned on refusal", and document 02, E1 and E3: the booking desk's calls. include/sayurimpak.h is their manual.
#![tactic(auto)]

ghost use Rattle.std.specs.Prelude.{◌≡◌};
ghost use Rattle.file_layout.specs.Format.{version_one};
ghost use Rattle.query.specs.Query.{plain_query, with_code, with_gate, with_margin};
ghost use Rattle.sayurimpak.specs.Desk.{desk_outcome};
ghost use Rattle.sayurimpak.specs.Given.{given, Fitting};

use numbers::{cell, number, put_numbers};
use plan_whole::Plan;
use planner::plan;
use query::{LEAST_MARGIN, query_of};
use rooms::{PLAN, plan_room, work_room};
use timetable::Refusal;

// A plan for a C host, which passes numbers and bytes only.
#[unsafe(no_mangle)]
pub extern "C" fn sayurimpak_plan(
    file: &[u8],
    source: u32,
    target: u32,
    minute: u32,
    code: u32,
    out: &mut [u8],
) -> u32
    ensures { (result ≡ (desk_outcome version_one file.now (with_code code (plain_query source target minute)) out.old).answer)
        × (out.new ≡ (desk_outcome version_one file.now (with_code code (plain_query source target minute)) out.old).bytes) }
{
    sayurimpak_plan_margin(file, source, target, minute, code, cell(LEAST_MARGIN), out)
}

// The same with a margin between the rides of a stop.
#[unsafe(no_mangle)]
pub extern "C" fn sayurimpak_plan_margin(
    file: &[u8],
    source: u32,
    target: u32,
    minute: u32,
    code: u32,
    margin: u32,
    out: &mut [u8],
) -> u32
    ensures { (result ≡ (desk_outcome version_one file.now (with_margin margin (with_code code (plain_query source target minute))) out.old).answer)
        × (out.new ≡ (desk_outcome version_one file.now (with_margin margin (with_code code (plain_query source target minute))) out.old).bytes) }
{
    sayurimpak_plan_gate(file, source, target, minute, code, margin, 0, out)
}

// The same where gates close so many minutes before departure.
#[unsafe(no_mangle)]
pub extern "C" fn sayurimpak_plan_gate(
    file: &[u8],
    source: u32,
    target: u32,
    minute: u32,
    code: u32,
    margin: u32,
    gate: u32,
    out: &mut [u8],
) -> u32
    ensures { (result ≡ (desk_outcome version_one file.now (with_gate gate (with_margin margin (with_code code (plain_query source target minute)))) out.old).answer)
        × (out.new ≡ (desk_outcome version_one file.now (with_gate gate (with_margin margin (with_code code (plain_query source target minute)))) out.old).bytes) }
{
    let q = query_of(source, target, minute, code, margin, gate);
    let mut work = work_room();
    let mut numbers = plan_room();
    // The planner is lent as many numbers as the host's bytes hold, so that its room below 3n is the host's below 12n.
    let lent = PLAN.min(out.len() / 4);
    let answer = plan(file, q, &mut work, &mut numbers[..lent]);
    give(answer, &numbers, out)
}

// The answer to the host, and a plan's numbers to its bytes. A C host has one number for both: a refusal's is above 10,000.
fn give(answer: Result<Plan, Refusal<u32>>, numbers: &[u32], out: &mut [u8]) -> u32
    requires { Fitting answer numbers.now out.old }
    ensures { (result ≡ (given answer numbers.now out.old).answer)
        × (out.new ≡ (given answer numbers.now out.old).bytes) }
{
    match answer {
        Err(refusal) => 10000 + refusal.number,
        Ok(plan) => {
            put_numbers(numbers, 3 * number(plan.rides), out);
            plan.rides
        }
    }
}
