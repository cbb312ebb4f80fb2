// Codes of a schedule, taken up to and including the next release: the one place where a step is done. The machine is stored into where it
// stands.
ghost use Rattle.std.specs.Prelude.{◌≡◌, length, ◌≤◌, OnErr};
ghost use Rattle.theory_machine.specs.Binary64.{binary64};
ghost use Rattle.theory_machine.specs.Steps.{perform};
ghost use Rattle.machine_parts.specs.View.{view, lent_with};
ghost use Rattle.machine_take.specs.Changes.{view_lent, answered, in_room};
ghost use Rattle.machine_take.specs.Taking.{stopped, view_taken, take_from};

use crate::apply::apply;
use crate::change::{Change, Lent, change_of};
use machine_parts::{Machine, Record};
use seven_bit::number_at;
use words::refusal::Refusal;

// Where a row of codes stops: at a release, with its record, at a refusal, or at the end; and the steps done.
#[derive(Clone, Copy)]
pub struct Taken {
    pub machine: Machine,
    pub steps: usize,
    pub place: usize,
    pub outcome: Result<Option<Record>, Refusal>,
}

// One step. A release wants room for its record.
fn take_code(m: &mut Machine, code: u32, lent: Lent, room: bool) -> Result<Option<Record>, Refusal>
    ensures is { answered result (view m.new) ≡ in_room room (view m.old) (perform binary64 (view_lent lent.entry) (view m.old) code) }
    ensures refused { OnErr result (m.new ≡ m.old) }
{
    let change = change_of(m, code, lent)?;
    match change {
        Change::Releases(_, _) if !room => Err(Refusal::Room),
        _ => Ok(apply(m, change)),
    }
}

// Code after code, up to and including the next release. (No count of places: a code's bytes move the place.)
fn until_release(
    taken: &mut Taken,
    lent: Lent,
    schedule: &[u8],
    room: bool,
) -> Result<Option<Record>, Refusal>
    requires { taken.old.steps ≤ taken.old.place }
    ensures { stopped taken.new result ≡ take_from (view_lent lent.entry) room schedule.now (length schedule.now) (view taken.old.machine) taken.old.steps taken.old.place }
{
    while taken.place < schedule.len() {
        let code = number_at(schedule, taken.place)?;
        let released = take_code(&mut taken.machine, code.value, lent, room)?;
        taken.place = code.next;
        taken.steps += 1;
        if released.is_some() {
            return Ok(released);
        }
    }
    Ok(None)
}

// From a place of the schedule on; steps are counted from there. (List and areas stay parameters apart: `take_codes_determined`.)
pub fn take_codes(
    m: Machine,
    words: &[u32],
    operands: &[f64],
    results: usize,
    schedule: &[u8],
    from: usize,
    room: bool,
) -> Taken
    ensures { view_taken result ≡ take_from (lent_with words.now operands.now results) room schedule.now (length schedule.now) (view m) 0 from }
{
    let mut taken = Taken {
        machine: m,
        steps: 0,
        place: from,
        outcome: Ok(None),
    };
    let lent = Lent {
        words,
        operands,
        results,
    };
    taken.outcome = until_release(&mut taken, lent, schedule, room);
    taken
}
