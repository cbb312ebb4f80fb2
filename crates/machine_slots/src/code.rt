// The step codes of 01: ONE TABLE, lowest codes first. What `step_of` reads, and the limit of the codes, come from it.
ghost use Rattle.std.specs.Prelude.{◌≡◌};
ghost use Rattle.machine_slots.specs.Slots.{ReadsAs};

use machine_parts::{StoreBuffer, Tag};

// base + first to base + last.
#[derive(Clone, Copy)]
pub struct CodeRow {
    pub base: u32,
    pub first: u32,
    pub last: u32,
}

pub const ROWS: usize = 6;

pub const CODES: [CodeRow; ROWS] = [
    // "0"
    CodeRow {
        base: 0,
        first: 0,
        last: 0,
    },
    // "16+b, b 1 to 6"
    CodeRow {
        base: 16,
        first: Tag::FIRST_BUFFER as u32,
        last: Tag::LAST_BUFFER as u32,
    },
    // "32+u, u 8 to 12"
    CodeRow {
        base: 32,
        first: Tag::FIRST_STATION as u32,
        last: Tag::LAST_STATION as u32,
    },
    // "48+t, t 1 to 6, 8 to 12"
    CodeRow {
        base: 48,
        first: Tag::FIRST_BUFFER as u32,
        last: Tag::LAST_BUFFER as u32,
    },
    CodeRow {
        base: 48,
        first: Tag::FIRST_STATION as u32,
        last: Tag::LAST_STATION as u32,
    },
    // "64+s, s 1 to 3"
    CodeRow {
        base: 64,
        first: StoreBuffer::FIRST as u32,
        last: StoreBuffer::LAST as u32,
    },
];

// Each end of a row by name, since a pattern of a `match` is a constant.
const ISSUE: u32 = CODES[0].base + CODES[0].first;

const FIRST_ARRIVAL: u32 = CODES[1].base + CODES[1].first;

const LAST_ARRIVAL: u32 = CODES[1].base + CODES[1].last;

const FIRST_COMPLETION: u32 = CODES[2].base + CODES[2].first;

const LAST_COMPLETION: u32 = CODES[2].base + CODES[2].last;

const FIRST_BUFFER_GRANT: u32 = CODES[3].base + CODES[3].first;

const LAST_BUFFER_GRANT: u32 = CODES[3].base + CODES[3].last;

const FIRST_STATION_GRANT: u32 = CODES[4].base + CODES[4].first;

const LAST_STATION_GRANT: u32 = CODES[4].base + CODES[4].last;

const FIRST_RELEASE: u32 = CODES[5].base + CODES[5].first;

const LAST_RELEASE: u32 = CODES[5].base + CODES[5].last;

// Every known code is below this.
pub const CODE_LIMIT: u32 = CODES[ROWS - 1].base + CODES[ROWS - 1].last + 1;

// A step: the slot by its index from 0.
#[derive(Clone, Copy)]
pub enum Step {
    Issue,
    Arrival(usize),
    Completion(usize),
    BufferGrant(usize),
    StationGrant(usize),
    Release(usize),
}

#[tactic(auto, unfolding(theory_machine::specs::Codes::step_of))]
pub fn step_of(code: u32) -> Option<Step>
    ensures { ReadsAs code result }
{
    let step = match code {
        ISSUE => Step::Issue,
        FIRST_ARRIVAL..=LAST_ARRIVAL => Step::Arrival((code - FIRST_ARRIVAL) as usize),
        FIRST_COMPLETION..=LAST_COMPLETION => Step::Completion((code - FIRST_COMPLETION) as usize),
        FIRST_BUFFER_GRANT..=LAST_BUFFER_GRANT => Step::BufferGrant(
            (code - FIRST_BUFFER_GRANT) as usize,
        ),
        FIRST_STATION_GRANT..=LAST_STATION_GRANT => Step::StationGrant(
            (code - FIRST_STATION_GRANT) as usize,
        ),
        FIRST_RELEASE..=LAST_RELEASE => Step::Release((code - FIRST_RELEASE) as usize),
        _ => return None,
    };
    Some(step)
}
