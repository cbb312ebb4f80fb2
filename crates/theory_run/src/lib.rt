// The run of a schedule with its release log, on paper: definitions and theorems (specs/, proofs/), no code.
#![tactic(auto)]
