// No code: the demands on a plan, in document 01's own words (specs/) and proved (proofs/).
#![tactic(auto)]
