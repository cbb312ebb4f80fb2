// One step of the caller's own machine. The step itself is crate machine_steps's, by value.
#![tactic(auto)]

ghost use Rattle.words.specs.Refusals.{answer_number};
ghost use Rattle.lent_step.specs.InPlace.{InPlace};

use machine_parts::Machine;
use machine_steps::step::step;
use words::refusal::Refusal;

// What the entry by value answers: the machine, and the refusal, if there is one.
#[derive(Clone, Copy)]
pub struct Placed {
    pub machine: Machine,
    pub outcome: Result<(), Refusal>,
}

// "One thin entry alters the caller's own machine where it stands and answers the refusal number"
pub fn step_in_place(
    m: &mut Machine,
    words: &[u32],
    operands: &[f64],
    results: &mut [f64],
    code: u32,
) -> Result<(), Refusal>
    ensures { InPlace words.now operands.now m.old results.old code (answer_number result) m.new results.new }
{
    let stepped = step(*m, words, operands, results, code);
    *m = stepped.machine;
    stepped.outcome?;
    Ok(())
}

// By value again, over the thin entry. (Kept beside it: `step_by_place_determined` speaks of it.)
pub fn step_by_place(
    m: Machine,
    words: &[u32],
    operands: &[f64],
    results: &mut [f64],
    code: u32,
) -> Placed
    ensures { InPlace words.now operands.now m results.old code (answer_number result.outcome) result.machine results.new }
{
    let mut machine = m;
    let outcome = step_in_place(&mut machine, words, operands, results, code);
    Placed { machine, outcome }
}
