// Whether a slot waits for a tag, and what it becomes at the grant: "every register, station and store operand with that tag takes the number".
#![tactic(auto)]

ghost use Rattle.std.specs.Prelude.{◌≡◌, ℕ, Bool, false, map};
ghost use Rattle.std.specs.Float.Ieee.{Float};
ghost use Rattle.machine_bus.specs.Bus.{operand_waiting, register_waiting, station_waiting, store_waiting, given_operand, given_register, given_station, given_store};
ghost use Rattle.machine_bus.specs.Laws.{operand_kept, register_kept, station_kept, store_kept};

use machine_parts::{Operand, Pending, Register, Station, StationState, StoreBuffer, Tag, Work};

// What may wait for a tag, and takes the number of its grant.
pub trait Waits {
    ghost waiting: { (tag : ℕ) → Self → Bool };

    ghost given: { (tag : ℕ) → Float → Self → Self };

    fn waits(&self, tag: Tag) -> bool
        ensures { result ≡ waiting tag.0 self.now };

    fn given(&self, tag: Tag, number: f64) -> Self
        ensures { result ≡ given tag.0 number self.now };

    // What does not wait is kept.
    ghost keeps: { (tag : ℕ) (number : Float) (x : Self) → waiting tag x ≡ false → given tag number x ≡ x };
}

impl Waits for Operand {
    ghost waiting = { operand_waiting };

    ghost given = { given_operand };

    ghost keeps = { operand_kept };

    fn waits(&self, tag: Tag) -> bool {
        match *self {
            Operand::Number(_) => false,
            Operand::Waits(other) => other == tag,
        }
    }

    fn given(&self, tag: Tag, number: f64) -> Operand {
        if self.waits(tag) {
            Operand::Number(number)
        } else {
            *self
        }
    }
}

impl Waits for Register {
    ghost waiting = { register_waiting };

    ghost given = { given_register };

    ghost keeps = { register_kept };

    fn waits(&self, tag: Tag) -> bool {
        self.operand.waits(tag)
    }

    fn given(&self, tag: Tag, number: f64) -> Register {
        Register {
            operand: self.operand.given(tag, number),
        }
    }
}

impl Waits for Station {
    ghost waiting = { station_waiting };

    ghost given = { given_station };

    ghost keeps = { station_kept };

    fn waits(&self, tag: Tag) -> bool {
        match self.state {
            StationState::Holding(work) => work.sink.waits(tag) || work.source.waits(tag),
            StationState::Free | StationState::Done(_) => false,
        }
    }

    fn given(&self, tag: Tag, number: f64) -> Station {
        match self.state {
            StationState::Holding(work) => Station {
                state: StationState::Holding(Work {
                    sink: work.sink.given(tag, number),
                    source: work.source.given(tag, number),
                    ..work
                }),
            },
            StationState::Free | StationState::Done(_) => *self,
        }
    }
}

impl Waits for StoreBuffer {
    ghost waiting = { store_waiting };

    ghost given = { given_store };

    ghost keeps = { store_kept };

    fn waits(&self, tag: Tag) -> bool {
        match self.pending {
            None => false,
            Some(pending) => pending.operand.waits(tag),
        }
    }

    fn given(&self, tag: Tag, number: f64) -> StoreBuffer {
        match self.pending {
            None => *self,
            Some(pending) => StoreBuffer {
                pending: Some(Pending {
                    operand: pending.operand.given(tag, number),
                    ..pending
                }),
            },
        }
    }
}

// A whole row; only what waits is stored anew.
pub fn give<T: Waits + Copy>(row: &mut [T], tag: Tag, number: f64)
    ensures { row.new ≡ map (T.given tag.0 number) row.old }
{
    for slot in row.iter_mut() {
        if slot.waits(tag) {
            *slot = slot.given(tag, number);
        }
    }
}
