// "Issue, always using the lowest-numbered free one": the finders.
#![tactic(auto)]

ghost use Rattle.std.specs.Prelude.{◌≡◌, ◌&&◌, map};
ghost use Rattle.theory_machine.specs.Tags.{suits};
ghost use Rattle.theory_machine.specs.Machine.{is_free_station, store_cell};
ghost use Rattle.theory_machine.specs.GoodOrder.{has_cell};
ghost use Rattle.machine_parts.specs.View.{view_buffer, view_station, view_store};
ghost use Rattle.machine_free.specs.Free.{view_free_slot, lowest_buffer_in, lowest_station_in, lowest_store_in, cell_live_in};

use machine_parts::{Buffer, BufferState, Station, StationState, StoreBuffer, Tag};
use numbers::Operation;

// (Kept beside `lowest_store`: a buffer and a store buffer are free in ways of their own, and each search is a line.)
pub fn lowest_buffer(bs: [Buffer; Tag::BUFFERS]) -> Option<usize>
    ensures { view_free_slot result ≡ lowest_buffer_in (map view_buffer bs) }
{
    (0..Tag::BUFFERS).find(|i| matches!(bs[*i].state, BufferState::Free))
}

// A free station of the operation's kind, which goes by its index.
fn station_serves(s: Station, i: usize, o: Operation) -> bool
    ensures { result ≡ suits i o && is_free_station (view_station s) }
{
    Tag::suits(i, o) && matches!(s.state, StationState::Free)
}

pub fn lowest_station(ss: [Station; Tag::STATIONS], o: Operation) -> Option<usize>
    ensures { view_free_slot result ≡ lowest_station_in (map view_station ss) o }
{
    (0..Tag::STATIONS).find(|i| station_serves(ss[*i], *i, o))
}

pub fn lowest_store(ts: [StoreBuffer; StoreBuffer::COUNT]) -> Option<usize>
    ensures { view_free_slot result ≡ lowest_store_in (map view_store ts) }
{
    ts.iter().position(|t| t.pending.is_none())
}

fn store_has(s: StoreBuffer, cell: usize) -> bool
    ensures { result ≡ has_cell cell (store_cell (view_store s)) }
{
    match s.pending {
        None => false,
        Some(p) => p.cell == cell,
    }
}

// Whether some live store buffer has the cell.
pub fn cell_live(ts: [StoreBuffer; StoreBuffer::COUNT], cell: usize) -> bool
    ensures { result ≡ cell_live_in (map view_store ts) cell }
{
    ts.iter().any(|t| store_has(*t, cell))
}
