// No code: document 01's cases marked P, about the definitions (specs/), and that they hold (proofs/).
#![tactic(auto)]
