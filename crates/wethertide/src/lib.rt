// The entries for programs in C or Rust: a static library. Its functions carry numbers and rows of numbers alone, so a machine goes as a row of
// 77 words (crate machine_words).
#![tactic(auto)]

mod lists;
mod machines;
mod run;
