// What a step stores, once it is known: only the slots that change.
ghost use Rattle.std.specs.Prelude.{◌≡◌, ◌+◌, ◌<◌, ◌^◌};
ghost use Rattle.theory_machine.specs.Steps.{granted};
ghost use Rattle.machine_parts.specs.View.{view};
ghost use Rattle.machine_take.specs.Changes.{issued, InRows, changed, Within, answered};

use crate::change::Change;
use crate::issue::Issue;
use machine_bus::give;
use machine_parts::{Machine, Record, Tag};
use machine_slots::made;

// "every register, station and store operand with that tag takes the number"
fn grant(m: &mut Machine, tag: Tag, number: f64)
    ensures { view m.new ≡ granted (view m.old) tag.0 number }
{
    give(&mut m.registers, tag, number);
    give(&mut m.stations, tag, number);
    give(&mut m.stores, tag, number);
}

// "next place grows by one"
#[tactic(auto, using(crate::proofs::Stored::stored))]
fn apply_issue(m: &mut Machine, issue: Issue)
    requires next { m.old.next + 1 < 2 ^ 64 }
    requires slots { InRows issue }
    ensures { view m.new ≡ issued (view m.old) issue }
{
    let place = m.next;
    m.next = place + 1;
    match issue {
        Issue::Loads(r, cell, b) => {
            m.registers[r] = made::waiting_register(Tag::of_buffer(b));
            m.buffers[b] = made::fetching(place, cell);
        }
        Issue::TakesCell(o, r, cell, b, u) => {
            let source = made::waiting_register(Tag::of_buffer(b));
            m.stations[u] = made::holding(place, o, m.registers[r], source);
            m.registers[r] = made::waiting_register(Tag::of_station(u));
            m.buffers[b] = made::fetching(place, cell);
        }
        Issue::Copies(r1, r2) => m.registers[r1] = m.registers[r2],
        Issue::TakesRegister(o, r1, r2, u) => {
            m.stations[u] = made::holding(place, o, m.registers[r1], m.registers[r2]);
            m.registers[r1] = made::waiting_register(Tag::of_station(u));
        }
        Issue::Stores(r, cell, t) => {
            m.stores[t] = made::pending(place, cell, m.registers[r]);
        }
    }
}

// The change, stored; the answer is what it releases, if anything.
#[tactic(auto, using(crate::proofs::Stored::stored))]
pub(crate) fn apply(m: &mut Machine, change: Change) -> Option<Record>
    requires { Within m.old.next change }
    ensures { answered (Ok result) (view m.new) ≡ changed (view m.old) change }
{
    match change {
        Change::Issues(issue) => apply_issue(m, issue),
        Change::Arrives(b, fetched) => m.buffers[b] = made::full(fetched),
        Change::Completes(u, worked) => m.stations[u] = made::done(worked),
        Change::BufferGives(b, number) => {
            m.buffers[b] = made::free_buffer();
            grant(m, Tag::of_buffer(b), number);
        }
        Change::StationGives(u, number) => {
            m.stations[u] = made::free_station();
            grant(m, Tag::of_station(u), number);
        }
        Change::Releases(t, record) => {
            m.stores[t] = made::free_store();
            return Some(record);
        }
    }
    None
}
