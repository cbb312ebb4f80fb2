// A machine as a row of 77 words (specs/Image.antt), for programs that can lend no machine: read from the row, and written to it.
#![tactic(auto)]

pub mod image;
pub mod layout;
pub mod row;
pub mod spelling;
