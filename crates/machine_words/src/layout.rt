// Where the parts of a machine stand in its row of words (specs/Image.antt): each row begins where the one before it ends.
use machine_parts::{Register, StoreBuffer, Tag};

pub(crate) const NEXT: usize = 0;

pub(crate) const REGISTER_WIDTH: usize = 2;

pub(crate) const BUFFER_WIDTH: usize = 3;

pub(crate) const STATION_WIDTH: usize = 7;

pub(crate) const STORE_WIDTH: usize = 5;

pub(crate) const REGISTERS: usize = NEXT + 1;

pub(crate) const BUFFERS: usize = REGISTERS + Register::COUNT * REGISTER_WIDTH;

pub(crate) const STATIONS: usize = BUFFERS + Tag::BUFFERS * BUFFER_WIDTH;

pub(crate) const STORES: usize = STATIONS + Tag::STATIONS * STATION_WIDTH;

// The words of a machine.
pub const WORDS: usize = STORES + StoreBuffer::COUNT * STORE_WIDTH;
