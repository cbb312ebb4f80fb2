// The machine on paper: this crate has definitions (specs/) and theorems (proofs/) and no code.
#![tactic(auto)]
