// The steps of document 01 by value: every entry checks for itself, and its contract fixes all that it gives and writes.
#![tactic(auto)]

pub mod advance;
pub mod lowest;
pub mod step;
