// A machine read from its row of words (specs/Image.antt).
ghost use Rattle.std.specs.Prelude.{◌≡◌, ◌+◌, ◌≤◌};
ghost use Rattle.machine_parts.specs.View.{view_operand, view_register, view_buffer, view_station, view_store, view};
ghost use Rattle.machine_words.specs.Rows as rows;
ghost use Rattle.machine_words.specs.Image as image;
ghost use Rattle.machine_words.specs.Image.{machine_in, image_length};

use crate::layout::{
    BUFFER_WIDTH, BUFFERS, NEXT, REGISTER_WIDTH, REGISTERS, STATION_WIDTH, STATIONS, STORE_WIDTH,
    STORES,
};
use crate::row::value_or;
use machine_parts::{
    Buffer, BufferState, Fetch, Machine, Operand, Pending, Ready, Register, Station, StationState,
    StoreBuffer, Tag, Work,
};
use numbers::Operation;
use std::array;

fn word_at(row: &[u64], place: usize) -> u64
    ensures { result ≡ rows.word_at row.now place }
{
    value_or(row, place, 0)
}

// Each slot begins where it has room in the row: no sum of a place is too large. (A type of such places would say the room in its name, for each width; a
// trait of reading would save four lines of `machine_in`, since no two slots have the same parts.)
fn operand_at(row: &[u64], place: usize) -> Operand
    requires { place + 2 ≤ image_length }
    ensures { view_operand result ≡ image.operand_at row.now place }
{
    let value = word_at(row, place + 1);
    match word_at(row, place) {
        0 => Operand::Number(numbers::number_of(value)),
        _ => Operand::Waits(Tag((value % 256) as u8)),
    }
}

// The numbers of the C interface, above the last one the last. (No `From` in crate numbers, which knows nothing of that interface.)
fn operation_at(row: &[u64], place: usize) -> Operation
    ensures { result ≡ image.operation_at row.now place }
{
    match word_at(row, place) {
        0 => Operation::Add,
        1 => Operation::Subtract,
        2 => Operation::Multiply,
        _ => Operation::Divide,
    }
}

fn register_at(row: &[u64], place: usize) -> Register
    requires { place + 2 ≤ image_length }
    ensures { view_register result ≡ image.operand_at row.now place }
{
    Register {
        operand: operand_at(row, place),
    }
}

fn buffer_at(row: &[u64], place: usize) -> Buffer
    requires { place + 3 ≤ image_length }
    ensures { view_buffer result ≡ image.buffer_at row.now place }
{
    let state = match word_at(row, place) {
        0 => BufferState::Free,
        1 => BufferState::Waiting(Fetch {
            place: word_at(row, place + 1) as usize,
            cell: word_at(row, place + 2) as usize,
        }),
        _ => BufferState::Full(Ready {
            place: word_at(row, place + 1) as usize,
            number: numbers::number_of(word_at(row, place + 2)),
        }),
    };
    Buffer { state }
}

fn station_at(row: &[u64], place: usize) -> Station
    requires { place + 7 ≤ image_length }
    ensures { view_station result ≡ image.station_at row.now place }
{
    let state = match word_at(row, place) {
        0 => StationState::Free,
        1 => StationState::Holding(Work {
            place: word_at(row, place + 1) as usize,
            operation: operation_at(row, place + 2),
            sink: operand_at(row, place + 3),
            source: operand_at(row, place + 5),
        }),
        _ => StationState::Done(Ready {
            place: word_at(row, place + 1) as usize,
            number: numbers::number_of(word_at(row, place + 2)),
        }),
    };
    Station { state }
}

fn store_at(row: &[u64], place: usize) -> StoreBuffer
    requires { place + 5 ≤ image_length }
    ensures { view_store result ≡ image.store_at row.now place }
{
    let pending = match word_at(row, place) {
        0 => None,
        _ => Some(Pending {
            place: word_at(row, place + 1) as usize,
            cell: word_at(row, place + 2) as usize,
            operand: operand_at(row, place + 3),
        }),
    };
    StoreBuffer { pending }
}

pub fn machine_in(row: &[u64]) -> Machine
    ensures { view result ≡ machine_in row.now }
{
    Machine {
        next: word_at(row, NEXT) as usize,
        registers: array::from_fn(|i| register_at(row, REGISTERS + i * REGISTER_WIDTH)),
        buffers: array::from_fn(|i| buffer_at(row, BUFFERS + i * BUFFER_WIDTH)),
        stations: array::from_fn(|i| station_at(row, STATIONS + i * STATION_WIDTH)),
        stores: array::from_fn(|i| store_at(row, STORES + i * STORE_WIDTH)),
    }
}
