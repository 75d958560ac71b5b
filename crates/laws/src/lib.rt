#![tactic(auto)]

// No code: laws on tests, lists and stores that the crates above cite (proofs/).
