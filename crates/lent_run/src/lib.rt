// The run of a schedule over a lent log of records (01, "a lent row of records"), and the same by value for covered callers.
#![tactic(auto)]

pub mod run;
