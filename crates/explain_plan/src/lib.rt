// For the office: how to follow a plan, what is wrong with a query, and that there is no journey.
#![tactic(auto)]

mod gate;
mod guide;
mod journey;

pub use guide::print_plan;
pub use journey::{print_no_journey, print_query_fault};
