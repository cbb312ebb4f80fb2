// List files of document 01: the reader and the writer.
#![tactic(auto)]

pub mod reader;
pub mod writer;

// What an accepted read gives: how many words, and the file's length.
#[derive(Clone, Copy, Debug, PartialEq, Eq)]
pub struct ListRead {
    pub count: usize,
    pub place: usize,
}

// What an accepted write gives: the file's length, and the list's.
#[derive(Clone, Copy, Debug, PartialEq, Eq)]
pub struct Written {
    pub length: usize,
    pub place: usize,
}
