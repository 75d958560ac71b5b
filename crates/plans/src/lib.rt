// Document 01, "Rides, safe journeys, plans", and document 02, E1 and E3: what planning aims at.
#![tactic(auto)]

// The target, the bound (0 for none: the number of the plan's answer, which `within` and `bound_of` are stated over), the margin
// between chosen rows, and the gate time.
#[derive(Clone, Copy)]
pub struct Goal {
    pub target: usize,
    pub bound: usize,
    pub margin: usize,
    pub gate: usize,
}
