// Numbers in groups of seven bits, low group first: read and written.
#![tactic(auto)]

ghost use Rattle.std.specs.Prelude.{◌≡◌, ◌+◌, ◌*◌, ◌<◌, length, Err};
ghost use Rattle.seven_bit.specs.SevenBits.{group_size, group_of, number_at, bytes_of, PutNumber};
ghost use Rattle.seven_bit.specs.Told.{told};

use words::refusal::{Refusal, Refused};

// What stands at a place of a file: a value, and the place after it.
#[derive(Clone, Copy, Debug, PartialEq, Eq)]
pub struct Parsed {
    pub value: u32,
    pub next: usize,
}

// Where another group follows.
const FOLLOWS: u32 = 0x80;

const GROUP: u32 = 0x7F;

// "above 65,535"
const NUMBER_LIMIT: u32 = 65535;

// What a third byte adds is at most the top two of a number's sixteen bits.
const THIRD_LIMIT: u32 = 3;

// A group in front of what the later ones give.
fn join(low: u32, later: u32) -> u32
    requires { later < 65536 }
    ensures { result ≡ group_of low + later * group_size }
{
    (low & GROUP) | (later << 7)
}

// The file ends inside a number that begins here.
fn cut(at: usize) -> Result<Parsed, Refused>
    ensures { result ≡ Err (record { refusal = Refusal.Cut; place = at }) }
{
    Err(Refusal::Cut.at(at))
}

// The number at a place of a file, 8 and 9 of 01 included.
pub fn number_at(bytes: &[u8], at: usize) -> Result<Parsed, Refused>
    ensures { told result ≡ number_at bytes.now at }
{
    if bytes.len() <= at {
        return cut(at);
    }
    let left = bytes.len() - at;
    let low = u32::from(bytes[at]);
    if low < FOLLOWS {
        return Ok(Parsed {
            value: low,
            next: at + 1,
        });
    }
    if left <= 1 {
        return cut(at);
    }
    let middle = u32::from(bytes[at + 1]);
    if middle < FOLLOWS {
        if middle == 0 {
            return Err(Refusal::Number.at(at));
        }
        return Ok(Parsed {
            value: join(low, middle),
            next: at + 2,
        });
    }
    if left <= 2 {
        return cut(at);
    }
    let high = u32::from(bytes[at + 2]);
    if high == 0 {
        return Err(Refusal::Number.at(at));
    }
    if THIRD_LIMIT < high {
        return Err(Refusal::Number.at(at));
    }
    Ok(Parsed {
        value: join(low, join(middle, high)),
        next: at + 3,
    })
}

// A group that another follows.
fn following(value: u32) -> u8
    ensures { result ≡ group_size + group_of value }
{
    ((value & GROUP) | FOLLOWS) as u8
}

const TWO_BYTES_FROM: u32 = 128;

const THREE_BYTES_FROM: u32 = 16384;

// How many bytes a number takes.
pub fn number_size(value: u32) -> usize
    ensures { result ≡ length (bytes_of value) }
{
    if value < TWO_BYTES_FROM {
        return 1;
    }
    if value < THREE_BYTES_FROM {
        return 2;
    }
    3
}

// A number at a place, and the place after it. One that is above the limit, or has no room there, is not written, and the place stays.
pub fn put_number(value: u32, bytes: &mut [u8], at: usize) -> usize
    ensures { PutNumber value bytes.old bytes.new at result }
{
    if bytes.len() <= at {
        return at;
    }
    let left = bytes.len() - at;
    if value < FOLLOWS {
        bytes[at] = value as u8;
        return at + 1;
    }
    if left < 2 {
        return at;
    }
    let second = value >> 7;
    if second < FOLLOWS {
        bytes[at] = following(value);
        bytes[at + 1] = second as u8;
        return at + 2;
    }
    if left < 3 {
        return at;
    }
    if NUMBER_LIMIT < value {
        return at;
    }
    bytes[at] = following(value);
    bytes[at + 1] = following(second);
    bytes[at + 2] = (second >> 7) as u8;
    at + 3
}
