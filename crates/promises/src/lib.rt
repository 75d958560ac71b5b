// No code: what is true of what the planning calls return (proofs/).
#![tactic(auto)]
