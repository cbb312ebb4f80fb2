// Changes that a session makes to its fresh machine: any slot, damaged as it likes.
use crate::scan::{Numbers, quarters};
use machine_parts::{
    Buffer, BufferState, Fetch, Machine, Operand, Pending, Ready, Register, Station, StationState,
    StoreBuffer, Tag, Work,
};
use numbers::Operation;

// A change, by its nine numbers: kind, index, place, cell, operation, sink (waits, value), source (waits, value). A number that is put is the sink's value.
#[derive(Clone, Copy)]
struct Change {
    // matched once, in `apply`
    kind: usize,
    index: usize,
    place: usize,
    cell: usize,
    operation: Operation,
    number: f64,
    sink: Operand,
    source: Operand,
}

// (A match: the operation's type is another crate's, which knows nothing of a session's numbers.)
fn operation_of(n: usize) -> Operation {
    match n {
        0 => Operation::Add,
        1 => Operation::Subtract,
        2 => Operation::Multiply,
        _ => Operation::Divide,
    }
}

fn operand_of(waits: usize, value: usize) -> Operand {
    if waits == 0 {
        return Operand::Number(quarters(value));
    }
    Operand::Waits(Tag((value % 256) as u8))
}

// A slot of a row; an index past the row changes nothing. (Crate machine_words has one like it, inner to that crate; three lines are no reason to make it public there.)
fn put<T: Copy>(row: &mut [T], index: usize, slot: T) {
    if index < row.len() {
        row[index] = slot;
    }
}

impl Change {
    fn read(numbers: &mut Numbers) -> Change {
        let kind = numbers.next();
        let index = numbers.next();
        let place = numbers.next();
        let cell = numbers.next();
        let operation = operation_of(numbers.next());
        let sink_waits = numbers.next();
        let sink = numbers.next();
        let source_waits = numbers.next();
        let source = numbers.next();
        Change {
            kind,
            index,
            place,
            cell,
            operation,
            number: quarters(sink),
            sink: operand_of(sink_waits, sink),
            source: operand_of(source_waits, source),
        }
    }

    fn ready(&self) -> Ready {
        Ready {
            place: self.place,
            number: self.number,
        }
    }

    fn fetch(&self) -> Fetch {
        Fetch {
            place: self.place,
            cell: self.cell,
        }
    }

    fn work(&self) -> Work {
        Work {
            place: self.place,
            operation: self.operation,
            sink: self.sink,
            source: self.source,
        }
    }

    fn pending(&self) -> Pending {
        Pending {
            place: self.place,
            cell: self.cell,
            operand: self.sink,
        }
    }

    fn buffer(&self, m: &mut Machine, state: BufferState) {
        put(&mut m.buffers, self.index, Buffer { state });
    }

    fn station(&self, m: &mut Machine, state: StationState) {
        put(&mut m.stations, self.index, Station { state });
    }

    fn apply(&self, m: &mut Machine) {
        let operand = self.sink;
        match self.kind {
            0 => m.next = self.place,
            1 => put(&mut m.registers, self.index, Register { operand }),
            2 => self.buffer(m, BufferState::Waiting(self.fetch())),
            3 => self.buffer(m, BufferState::Full(self.ready())),
            4 => self.station(m, StationState::Holding(self.work())),
            5 => self.station(m, StationState::Done(self.ready())),
            _ => {
                let pending = Some(self.pending());
                put(&mut m.stores, self.index, StoreBuffer { pending });
            }
        }
    }
}

// A count and so many changes.
pub(crate) fn changes(numbers: &mut Numbers, m: &mut Machine) {
    for _ in 0..numbers.next() {
        Change::read(numbers).apply(m);
    }
}
