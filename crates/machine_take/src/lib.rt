// The one place where a step is done: codes of a schedule taken up to and including the next release, without the test of good order. It is no
// entry: crate machine_steps has those, which test it.
#![tactic(auto)]

mod apply;
mod change;
mod issue;
pub mod taking;
