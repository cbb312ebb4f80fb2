// What the machine of document 01 holds (01, "Tags and what the machine holds"), and a fresh machine.
#![tactic(auto)]

pub mod start;

ghost use Rattle.std.specs.Prelude.{◌≡◌};
ghost use Rattle.theory_machine.specs.Tags as theory;
ghost use Rattle.machine_parts.specs.TagOf.{tag_of_buffer, tag_of_station};
ghost use Rattle.theory_machine.specs.Instruction.{index_of};

use numbers::Operation;
use words::refusal::Refusal;

// A tag: a buffer's or a station's number.
#[derive(Clone, Copy, PartialEq, Eq)]
pub struct Tag(pub u8);

impl Tag {
    pub const FIRST_BUFFER: u8 = 1;

    pub const LAST_BUFFER: u8 = 6;

    // "Seven is never used."
    pub const UNUSED: u8 = 7;

    pub const FIRST_STATION: u8 = 8;

    pub const FIRST_ADDER: u8 = 10;

    pub const LAST_ADDER: u8 = 12;

    pub const LAST_STATION: u8 = Self::LAST_ADDER;

    // How many buffers there are, and how many stations.
    pub const BUFFERS: usize = (Self::LAST_BUFFER - Self::FIRST_BUFFER) as usize + 1;

    pub const STATIONS: usize = (Self::LAST_STATION - Self::FIRST_STATION) as usize + 1;

    // The first number above every tag.
    pub const LIMIT: usize = Self::LAST_STATION as usize + 1;

    // The tag of a buffer, by its index from 0; of no buffer, the unused one. (A function over both would take the first tag too, and ask that the sum
    // is below 256; `of_buffer` and `of_station` ask nothing.)
    pub fn of_buffer(i: usize) -> Tag
        ensures { result.0 ≡ tag_of_buffer i }
    {
        if i < Self::BUFFERS {
            return Tag(Self::FIRST_BUFFER + i as u8);
        }
        Tag(Self::UNUSED)
    }

    // The tag of a station, by its index from 0; of no station, the unused one.
    pub fn of_station(i: usize) -> Tag
        ensures { result.0 ≡ tag_of_station i }
    {
        if i < Self::STATIONS {
            return Tag(Self::FIRST_STATION + i as u8);
        }
        Tag(Self::UNUSED)
    }

    // "add stations hold only add and subtract, the other two only multiply and divide": by the station's index from 0. One that
    // does not exist suits nothing.
    pub fn suits(index: usize, operation: Operation) -> bool
        ensures { result ≡ theory.suits index operation }
    {
        if Self::STATIONS <= index {
            return false;
        }
        let adder = (Self::FIRST_ADDER - Self::FIRST_STATION) as usize;
        match operation {
            Operation::Add => adder <= index,
            Operation::Subtract => adder <= index,
            Operation::Multiply => index < adder,
            Operation::Divide => index < adder,
        }
    }
}

// "An operand is either a number or the tag it waits for."
#[derive(Clone, Copy)]
pub enum Operand {
    Number(f64),
    Waits(Tag),
}

#[derive(Clone, Copy)]
pub struct Register {
    pub operand: Operand,
}

impl Register {
    pub const COUNT: usize = 4;

    // "Registers are 0, 2, 4, 6": a register's index from 0.
    pub fn index_of(register: u32) -> usize
        ensures { result ≡ index_of register }
    {
        (register / 2) as usize
    }
}

// A buffer that waits for its cell's number.
#[derive(Clone, Copy)]
pub struct Fetch {
    pub place: usize,
    pub cell: usize,
}

// What a full buffer holds, its cell's number, and a station that is done, its result: a number that is ready for its grant.
#[derive(Clone, Copy)]
pub struct Ready {
    pub place: usize,
    pub number: f64,
}

#[derive(Clone, Copy)]
pub enum BufferState {
    Free,
    Waiting(Fetch),
    Full(Ready),
}

#[derive(Clone, Copy)]
pub struct Buffer {
    pub state: BufferState,
}

// A station that holds an operation and its two operands.
#[derive(Clone, Copy)]
pub struct Work {
    pub place: usize,
    pub operation: Operation,
    pub sink: Operand,
    pub source: Operand,
}

#[derive(Clone, Copy)]
pub enum StationState {
    Free,
    Holding(Work),
    Done(Ready),
}

#[derive(Clone, Copy)]
pub struct Station {
    pub state: StationState,
}

// A store that waits for its release.
#[derive(Clone, Copy)]
pub struct Pending {
    pub place: usize,
    pub cell: usize,
    pub operand: Operand,
}

// Free, or live with the store that it holds.
#[derive(Clone, Copy)]
pub struct StoreBuffer {
    pub pending: Option<Pending>,
}

impl StoreBuffer {
    // "Store buffers are 1 to 3 and have no tag."
    pub const FIRST: u8 = 1;

    pub const LAST: u8 = 3;

    pub const COUNT: usize = (Self::LAST - Self::FIRST) as usize + 1;
}

#[derive(Clone, Copy)]
pub struct Machine {
    pub next: usize,
    pub registers: [Register; Register::COUNT],
    pub buffers: [Buffer; Tag::BUFFERS],
    pub stations: [Station; Tag::STATIONS],
    pub stores: [StoreBuffer; StoreBuffer::COUNT],
}

// A record of the release log.
#[derive(Clone, Copy)]
pub struct Record {
    pub place: usize,
    pub cell: usize,
    pub number: f64,
}

// The answer of a step: the machine, and what was released, if anything, or the refusal.
#[derive(Clone, Copy)]
pub struct Stepped {
    pub machine: Machine,
    pub outcome: Result<Option<Record>, Refusal>,
}
