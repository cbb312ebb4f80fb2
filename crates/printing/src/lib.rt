// Text put into lent bytes: numbers, patterns, and the lines that every program of document 01 may print.
#![tactic(auto)]

ghost use Rattle.std.specs.Prelude.{◌≡◌};
ghost use Rattle.words.specs.Refusals.{number};
ghost use Rattle.printing.specs.declared.Fault.TheVariants as found;

pub mod lines;
pub mod put;
mod room;
pub mod stop;

use words::refusal::Refused;

// What stops a program at a file: it is missing, or a refusal number of 01 with its place. (A number, and no Refused: `put_line_determined` speaks of any.)
#[derive(Clone, Copy, Debug, PartialEq, Eq)]
pub enum Fault {
    Missing,
    Refused(u32, usize),
}

// `?` makes a file's refusal its fault.
impl From<Refused> for Fault {
    ghost from_gives = { λ refused fault. fault ≡ found.Refused (number refused.refusal) refused.place };

    fn from(refused: Refused) -> Fault {
        Fault::Refused(u32::from(refused.refusal), refused.place)
    }
}
