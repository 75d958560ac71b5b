// No code: a delay table by its rising cumulative shares (specs/), and that the check accepts it (proofs/).
#![tactic(auto)]
