// Who gives a tag: the place that the buffer or station of each tag holds.
ghost use Rattle.std.specs.Prelude.{◌≡◌, map};
ghost use Rattle.theory_machine.specs.GoodOrder.{buffer_giver, station_giver};
ghost use Rattle.machine_parts.specs.View.{view_buffer, view_station};
ghost use Rattle.good_order.specs.SlotRules.{place_of, place_table, place_in};

use machine_parts::{Buffer, BufferState, Station, StationState, Tag};

// Nobody's place: a machine in good order holds none as high, since each is below the next one. (No Option: "at most that place" and "below it" are false of
// it without a case, and the definitions `place_of` and `place_table` hold it.)
pub(crate) const NEVER: usize = 0xFFFF_FFFF_FFFF_FFFF;

fn buffer_place(buffer: Buffer) -> usize
    ensures { result ≡ place_of (buffer_giver (view_buffer buffer)) }
{
    match buffer.state {
        BufferState::Free => NEVER,
        BufferState::Waiting(fetch) => fetch.place,
        BufferState::Full(fetched) => fetched.place,
    }
}

fn station_place(station: Station) -> usize
    ensures { result ≡ place_of (station_giver (view_station station)) }
{
    match station.state {
        StationState::Free => NEVER,
        StationState::Holding(work) => work.place,
        StationState::Done(worked) => worked.place,
    }
}

// By tag; 0 and 7 are nobody's. (One row, made once a call: a struct of it would be unpacked in each rule.)
pub(crate) fn giver_places(
    buffers: [Buffer; Tag::BUFFERS],
    stations: [Station; Tag::STATIONS],
) -> [usize; Tag::LIMIT]
    ensures { result ≡ place_table (map view_buffer buffers) (map view_station stations) }
{
    let mut places = [NEVER; Tag::LIMIT];
    for (i, buffer) in buffers.iter().enumerate() {
        places[Tag::FIRST_BUFFER as usize + i] = buffer_place(*buffer);
    }
    for (i, station) in stations.iter().enumerate() {
        places[Tag::FIRST_STATION as usize + i] = station_place(*station);
    }
    places
}

pub(crate) fn giver_place(tag: Tag, places: &[usize; Tag::LIMIT]) -> usize
    ensures { result ≡ place_in places.now tag.0 }
{
    places.get(usize::from(tag.0)).copied().unwrap_or(NEVER)
}
