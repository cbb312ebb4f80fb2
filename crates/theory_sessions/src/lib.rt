// Sessions P1 to P12 of document 01: one table (specs/) and one claim on it (proofs/), and no code.
#![tactic(auto)]
