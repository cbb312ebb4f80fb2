// What a slot becomes.
ghost use Rattle.std.specs.Prelude.{◌≡◌};
ghost use Rattle.theory_machine.specs.Machine.{tag, free_buffer, waiting, full, free_station, holding, done, free_store, live};
ghost use Rattle.machine_parts.specs.View.{view_register, view_buffer, view_station, view_store};

use machine_parts::{
    Buffer, BufferState, Fetch, Operand, Pending, Ready, Register, Station, StationState,
    StoreBuffer, Tag, Work,
};
use numbers::Operation;

pub fn waiting_register(t: Tag) -> Register
    ensures { view_register result ≡ tag t.0 }
{
    Register {
        operand: Operand::Waits(t),
    }
}

pub fn free_buffer() -> Buffer
    ensures { view_buffer result ≡ free_buffer }
{
    Buffer {
        state: BufferState::Free,
    }
}

pub fn fetching(place: usize, cell: usize) -> Buffer
    ensures { view_buffer result ≡ waiting place cell }
{
    Buffer {
        state: BufferState::Waiting(Fetch { place, cell }),
    }
}

pub fn full(fetched: Ready) -> Buffer
    ensures { view_buffer result ≡ full fetched.place fetched.number }
{
    Buffer {
        state: BufferState::Full(fetched),
    }
}

pub fn free_station() -> Station
    ensures { view_station result ≡ free_station }
{
    Station {
        state: StationState::Free,
    }
}

pub fn holding(place: usize, operation: Operation, sink: Register, source: Register) -> Station
    ensures { view_station result ≡ holding place operation (view_register sink) (view_register source) }
{
    Station {
        state: StationState::Holding(Work {
            place,
            operation,
            sink: sink.operand,
            source: source.operand,
        }),
    }
}

pub fn done(worked: Ready) -> Station
    ensures { view_station result ≡ done worked.place worked.number }
{
    Station {
        state: StationState::Done(worked),
    }
}

pub fn free_store() -> StoreBuffer
    ensures { view_store result ≡ free_store }
{
    StoreBuffer { pending: None }
}

pub fn pending(place: usize, cell: usize, operand: Register) -> StoreBuffer
    ensures { view_store result ≡ live place cell (view_register operand) }
{
    StoreBuffer {
        pending: Some(Pending {
            place,
            cell,
            operand: operand.operand,
        }),
    }
}
