// Document 02, E2: what `stop_times.txt` means: its calls, its first fault, its rows and ids. No code: specs/ and proofs/ have it all.
#![tactic(auto)]
