// Good order, one test a slot: all of 01's rules for it at once.
ghost use Rattle.std.specs.Prelude.{◌≡◌};
ghost use Rattle.words.specs.Instructions.{is_cell};
ghost use Rattle.machine_parts.specs.View.{view_operand, view_register, view_buffer, view_station, view_store};
ghost use Rattle.good_order.specs.SlotRules.{place_in, register_good, operand_good, buffer_good, station_good, store_good, cells_apart};

use crate::givers;
use machine_parts::{
    Buffer, BufferState, Operand, Register, Station, StationState, StoreBuffer, Tag,
};

// A register's tag has a giver, of whatever place.
pub(crate) fn register_good(register: Register, places: &[usize; Tag::LIMIT]) -> bool
    ensures { result ≡ register_good (place_in places.now) (view_register register) }
{
    match register.operand {
        Operand::Number(_) => true,
        Operand::Waits(tag) => givers::giver_place(tag, places) != givers::NEVER,
    }
}

// An operand that is held at a place: of a buffer of place at most that, or of a station of place below it.
fn operand_good(operand: Operand, place: usize, places: &[usize; Tag::LIMIT]) -> bool
    ensures { result ≡ operand_good (place_in places.now) place (view_operand operand) }
{
    match operand {
        Operand::Number(_) => true,
        Operand::Waits(tag) => {
            let given = givers::giver_place(tag, places);
            if tag.0 < Tag::FIRST_STATION {
                given <= place
            } else {
                given < place
            }
        }
    }
}

#[tactic(auto, unfolding(words::specs::Instructions::is_cell))]
fn cell_good(area: usize, cell: usize) -> bool
    ensures { result ≡ is_cell area cell }
{
    cell < words::CELL_LIMIT && cell < area
}

pub(crate) fn buffer_good(buffer: Buffer, next: usize, operands: usize) -> bool
    ensures { result ≡ buffer_good next operands (view_buffer buffer) }
{
    match buffer.state {
        BufferState::Free => true,
        BufferState::Waiting(fetch) => fetch.place < next && cell_good(operands, fetch.cell),
        BufferState::Full(fetched) => fetched.place < next,
    }
}

pub(crate) fn station_good(
    station: Station,
    index: usize,
    next: usize,
    places: &[usize; Tag::LIMIT],
) -> bool
    ensures { result ≡ station_good (place_in places.now) next index (view_station station) }
{
    match station.state {
        StationState::Free => true,
        StationState::Holding(work) => {
            work.place < next
                && Tag::suits(index, work.operation)
                && operand_good(work.sink, work.place, places)
                && operand_good(work.source, work.place, places)
        }
        StationState::Done(worked) => worked.place < next,
    }
}

pub(crate) fn store_good(
    store: StoreBuffer,
    next: usize,
    results: usize,
    places: &[usize; Tag::LIMIT],
) -> bool
    ensures { result ≡ store_good (place_in places.now) next results (view_store store) }
{
    match store.pending {
        None => true,
        Some(pending) => {
            pending.place < next
                && cell_good(results, pending.cell)
                && operand_good(pending.operand, pending.place, places)
        }
    }
}

pub(crate) fn stores_differ(one: StoreBuffer, other: StoreBuffer) -> bool
    ensures { result ≡ cells_apart (view_store one) (view_store other) }
{
    match (one.pending, other.pending) {
        (Some(first), Some(second)) => second.cell != first.cell,
        _ => true,
    }
}
