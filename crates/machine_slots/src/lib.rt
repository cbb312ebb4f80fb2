// For crates machine_take and machine_steps: a code read, and what a slot becomes.
#![tactic(auto)]

pub mod code;
pub mod made;
