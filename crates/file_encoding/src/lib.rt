// No code: the bytes of a timetable, and that reading and checking undo writing (specs/, proofs/).
#![tactic(auto)]
