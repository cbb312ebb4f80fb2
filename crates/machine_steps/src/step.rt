// One step: the entry that checks the list's length and the machine, and writes the result cell of a release.
ghost use Rattle.std.specs.Prelude.{◌≡◌, Err};
ghost use Rattle.theory_machine.specs.Asked.{written};
ghost use Rattle.machine_parts.specs.View.{released_by};
ghost use Rattle.machine_steps.specs.Step.{StepAnswer};

use good_order::in_good_order;
use machine_parts::{Machine, Record, Stepped};
use machine_take::taking::take_codes;
use words::refusal::Refusal;
use words::{Areas, LIST_LIMIT};

// Codes up to this are one byte of a schedule; none above it is known.
const ONE_BYTE: u32 = 127;

// "the cell is written". A cell beyond the area is none: good order rules it out.
pub(crate) fn write_released(outcome: Result<Option<Record>, Refusal>, results: &mut [f64])
    ensures { results.new ≡ written results.old (released_by outcome) }
{
    if let Ok(Some(record)) = outcome {
        if record.cell < results.len() {
            results[record.cell] = record.number;
        }
    }
}

// "A refused call returns the machine as given and writes nothing."
fn refused(machine: Machine, refusal: Refusal) -> Stepped
    ensures { result ≡ record { machine = machine; outcome = Err refusal } }
{
    Stepped {
        machine,
        outcome: Err(refusal),
    }
}

// The list and the areas stay parameters apart, as C has them and as `step_determined` and `demand_three` speak of them; so in each entry.
// Order for one step: 1, 6, 5; for an issue at the list's end 7, else 2, 3, 4 for that word, then 7. A known code is one byte, so a step is
// the run of a schedule of that byte.
pub fn step(m: Machine, words: &[u32], operands: &[f64], results: &mut [f64], code: u32) -> Stepped
    ensures { StepAnswer words.now operands.now m results.old code result results.new }
{
    if LIST_LIMIT < words.len() {
        return refused(m, Refusal::List);
    }
    if !in_good_order(m, words, Areas::of(operands, results)) {
        return refused(m, Refusal::Order);
    }
    if ONE_BYTE < code {
        return refused(m, Refusal::Code);
    }
    let schedule = [code as u8];
    let taken = take_codes(m, words, operands, results.len(), &schedule, 0, true);
    write_released(taken.outcome, results);
    Stepped {
        machine: taken.machine,
        outcome: taken.outcome,
    }
}
