// Good order, a row at a time.
ghost use Rattle.std.specs.Prelude.{◌≡◌, map};
ghost use Rattle.theory_machine.specs.Binary64.{binary64};
ghost use Rattle.machine_parts.specs.View.{view_register, view_buffer, view_station, view_store};
ghost use Rattle.good_order.specs.SlotRules.{place_in, registers_good, buffers_good, stations_good, stores_good, stores_apart};

use crate::slot_rules;
use machine_parts::{Buffer, Register, Station, StoreBuffer, Tag};

pub(crate) fn registers_good(
    registers: [Register; Register::COUNT],
    places: &[usize; Tag::LIMIT],
) -> bool
    ensures { result ≡ registers_good (place_in places.now) binary64.nought (map view_register registers) }
{
    registers
        .iter()
        .all(|register| slot_rules::register_good(*register, places))
}

pub(crate) fn buffers_good(buffers: [Buffer; Tag::BUFFERS], next: usize, operands: usize) -> bool
    ensures { result ≡ buffers_good next operands (map view_buffer buffers) }
{
    buffers
        .iter()
        .all(|buffer| slot_rules::buffer_good(*buffer, next, operands))
}

pub(crate) fn stations_good(
    stations: [Station; Tag::STATIONS],
    next: usize,
    places: &[usize; Tag::LIMIT],
) -> bool
    ensures { result ≡ stations_good (place_in places.now) next (map view_station stations) }
{
    stations.iter().enumerate().all(|(i, station)| slot_rules::station_good(
        *station, i, next, places,
    ))
}

pub(crate) fn stores_good(
    stores: [StoreBuffer; StoreBuffer::COUNT],
    next: usize,
    results: usize,
    places: &[usize; Tag::LIMIT],
) -> bool
    ensures { result ≡ stores_good (place_in places.now) next results (map view_store stores) }
{
    stores.iter().all(|store| slot_rules::store_good(*store, next, results, places))
}

// Each pair of the three. (Three lines; a loop over pairs would be two loops over indices.)
pub(crate) fn stores_apart(stores: [StoreBuffer; StoreBuffer::COUNT]) -> bool
    ensures { result ≡ stores_apart (map view_store stores) }
{
    slot_rules::stores_differ(stores[0], stores[1])
        && slot_rules::stores_differ(stores[0], stores[2])
        && slot_rules::stores_differ(stores[1], stores[2])
}
