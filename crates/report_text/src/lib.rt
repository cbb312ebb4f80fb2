// The report of document 01 as text in a lent row of bytes.
#![tactic(auto)]

mod begin;
mod page;
pub mod report;
mod stop;
mod told;

// The bytes of each file that was named and opened.
#[derive(Clone, Copy)]
pub struct Files<'a> {
    pub list: Option<&'a [u8]>,
    pub operands: Option<&'a [u8]>,
    pub schedule: Option<&'a [u8]>,
}
