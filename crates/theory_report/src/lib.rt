// The text of a report (01, "The report program"), on paper: definitions and theorems (specs/, proofs/), no code.
#![tactic(auto)]
