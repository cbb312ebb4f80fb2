// A machine written to its row of words, slot by slot (specs/Image.antt).
ghost use Rattle.std.specs.Prelude.{◌≡◌, ◌+◌, ◌*◌, ◌≤◌, ℕ, List, cond, length};
ghost use Rattle.machine_parts.specs.View.{view_operand, view_register, view_buffer, view_station, view_store, view};
ghost use Rattle.machine_words.specs.Image.{operand_words, operation_word, buffer_words, station_words, store_words, row_over, image_over, image_length};

use crate::layout::{
    BUFFER_WIDTH, BUFFERS, NEXT, REGISTER_WIDTH, REGISTERS, STATION_WIDTH, STATIONS, STORE_WIDTH,
    STORES,
};
use crate::row::{put, put_words};
use machine_parts::{
    Buffer, BufferState, Machine, Operand, Register, Station, StationState, StoreBuffer,
};
use numbers::Operation;

// A slot, by its words.
trait Spelled<const N: usize> {
    ghost spelling: { Self → List ℕ };

    fn words(&self) -> [u64; N]
        ensures { result ≡ spelling self.now };
}

fn operand_words(operand: Operand) -> [u64; REGISTER_WIDTH]
    ensures { result ≡ operand_words (view_operand operand) }
{
    match operand {
        Operand::Number(number) => [0, numbers::pattern_of(number)],
        Operand::Waits(tag) => [1, u64::from(tag.0)],
    }
}

// The numbers of the C interface, as `operation_at` reads them.
fn operation_word(operation: Operation) -> u64
    ensures { result ≡ operation_word operation }
{
    match operation {
        Operation::Add => 0,
        Operation::Subtract => 1,
        Operation::Multiply => 2,
        Operation::Divide => 3,
    }
}

impl Spelled<REGISTER_WIDTH> for Register {
    ghost spelling = { λ r. operand_words (view_register r) };

    fn words(&self) -> [u64; REGISTER_WIDTH] {
        operand_words(self.operand)
    }
}

impl Spelled<BUFFER_WIDTH> for Buffer {
    ghost spelling = { λ b. buffer_words (view_buffer b) };

    fn words(&self) -> [u64; BUFFER_WIDTH] {
        match self.state {
            BufferState::Free => [0; BUFFER_WIDTH],
            BufferState::Waiting(fetch) => [1, fetch.place as u64, fetch.cell as u64],
            BufferState::Full(fetched) => [
                2,
                fetched.place as u64,
                numbers::pattern_of(fetched.number),
            ],
        }
    }
}

impl Spelled<STATION_WIDTH> for Station {
    ghost spelling = { λ s. station_words (view_station s) };

    fn words(&self) -> [u64; STATION_WIDTH] {
        match self.state {
            StationState::Free => [0; STATION_WIDTH],
            StationState::Holding(work) => {
                let code = operation_word(work.operation);
                let x = operand_words(work.sink);
                let y = operand_words(work.source);
                [1, work.place as u64, code, x[0], x[1], y[0], y[1]]
            }
            StationState::Done(worked) => {
                let pattern = numbers::pattern_of(worked.number);
                [2, worked.place as u64, pattern, 0, 0, 0, 0]
            }
        }
    }
}

impl Spelled<STORE_WIDTH> for StoreBuffer {
    ghost spelling = { λ t. store_words (view_store t) };

    fn words(&self) -> [u64; STORE_WIDTH] {
        match self.pending {
            None => [0; STORE_WIDTH],
            Some(pending) => {
                let x = operand_words(pending.operand);
                [1, pending.place as u64, pending.cell as u64, x[0], x[1]]
            }
        }
    }
}

fn put_row<T: Spelled<N>, const N: usize>(row: &mut [u64], from: usize, slots: &[T])
    requires { from + length slots.now * N ≤ image_length }
    ensures { row.new ≡ row_over T.spelling N from slots.now row.old }
{
    let mut place = from;
    for slot in slots {
        put_words(row, place, &slot.words());
        place += N;
    }
}

pub fn put_machine(row: &mut [u64], m: Machine)
    ensures { row.new ≡ image_over (view m) row.old }
{
    put(row, NEXT, m.next as u64);
    put_row(row, REGISTERS, &m.registers);
    put_row(row, BUFFERS, &m.buffers);
    put_row(row, STATIONS, &m.stations);
    put_row(row, STORES, &m.stores);
}

// A step that was refused leaves the row word for word as found. (A flag and no Option of a machine: `put_taken_determined` speaks of both.)
pub fn put_taken(row: &mut [u64], m: Machine, taken: bool)
    ensures { row.new ≡ cond taken (image_over (view m) row.old) row.old }
{
    if taken {
        put_machine(row, m);
    }
}
