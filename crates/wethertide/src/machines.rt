// The entries on a machine that take no schedule, and the one-at-a-time run.
ghost use Rattle.std.specs.Prelude.{◌≡◌, ◌&&◌, [], ◌∷◌, length};
ghost use Rattle.std.proofs.lemmas.List.Edits.{sets};
ghost use Rattle.theory_machine.specs.Tags.{register_count};
ghost use Rattle.theory_machine.specs.Binary64.{binary64};
ghost use Rattle.theory_machine.specs.Steps.{in_order};
ghost use Rattle.theory_machine.specs.GoodOrder.{drained};
ghost use Rattle.theory_machine.specs.Entries.{fresh, steps_left, lowest_step};
ghost use Rattle.machine_parts.specs.View.{lent, view_record, view_released};
ghost use Rattle.machine_steps.specs.Lowest.{view_lowest};
ghost use Rattle.machine_words.specs.Image.{image_length, machine_in, image_over};
ghost use Rattle.wethertide.specs.Entries.{fits, ByRoom, released_length, left_length, lowest_length, record_words, released_words, lowest_words, starts_in, StepWords, step_in, alone_in};

use machine_parts::{Record, Register};
use machine_steps::lowest::lowest_step;
use machine_words::image::machine_in;
use machine_words::layout::WORDS;
use machine_words::row::{number_or_zero, put_words};
use machine_words::spelling::put_machine;
use std::array;
use words::refusal::{ACCEPTED, Refusal, number_of};

// The words of a record, and of each row: what was released, the steps left, the lowest step.
pub(crate) const RECORD_WORDS: usize = 3;

const RELEASED: usize = 1 + RECORD_WORDS;

const LEFT: usize = 1;

const LOWEST: usize = 2;

pub(crate) fn record_words(made: Record) -> [u64; RECORD_WORDS]
    ensures { result ≡ record_words (view_record made) }
{
    [
        made.place as u64,
        made.cell as u64,
        numbers::pattern_of(made.number),
    ]
}

fn released_words(released: Option<Record>) -> [u64; RELEASED]
    ensures { result ≡ released_words (view_released released) }
{
    match released {
        None => [0; RELEASED],
        Some(made) => {
            let words = record_words(made);
            [1, words[0], words[1], words[2]]
        }
    }
}

fn lowest_words(lowest: Option<u32>) -> [u64; LOWEST]
    ensures { result ≡ lowest_words (view_lowest lowest) }
{
    match lowest {
        None => [0; LOWEST],
        Some(code) => [1, u64::from(code)],
    }
}

fn starts_in(row: &[f64]) -> [f64; Register::COUNT]
    ensures { result ≡ starts_in row.now }
{
    array::from_fn(|i| number_or_zero(row, i))
}

// Answers the refusal; the row of words takes the machine.
#[unsafe(no_mangle)]
pub extern "C" fn wethertide_fresh(
    words: &[u32],
    operands: &[f64],
    results: &[f64],
    starts: &[f64],
    machine: &mut [u64],
) -> u32
    ensures { ByRoom (fits register_count starts.now && fits image_length machine.old)
        ((result ≡ (fresh binary64 (lent words.now operands.now results.now) (starts_in starts.now)).refusal)
        × (machine.new ≡ image_over (fresh binary64 (lent words.now operands.now results.now) (starts_in starts.now)).machine machine.old))
        ((result ≡ 11) × (machine.new ≡ machine.old)) }
{
    if starts.len() < Register::COUNT {
        return u32::from(Refusal::Room);
    }
    if machine.len() < WORDS {
        return u32::from(Refusal::Room);
    }
    let begun = machine_parts::start::fresh(words, operands, results, starts_in(starts));
    put_machine(machine, begun.machine);
    number_of(&begun.outcome)
}

// Answers the refusal; of a step that was taken the row of words takes the machine, the released row whether a record was released, and the record.
#[unsafe(no_mangle)]
pub extern "C" fn wethertide_step(
    machine: &mut [u64],
    words: &[u32],
    operands: &[f64],
    results: &mut [f64],
    code: u32,
    released: &mut [u64],
) -> u32
    ensures { ByRoom (fits image_length machine.old && fits released_length released.old)
        (StepWords (step_in words.now operands.now machine.old results.old code)
        machine.old results.old released.old result machine.new results.new released.new)
        ((result ≡ 11) × (machine.new ≡ machine.old) × (results.new ≡ results.old) × (released.new ≡ released.old)) }
{
    if machine.len() < WORDS {
        return u32::from(Refusal::Room);
    }
    if released.len() < RELEASED {
        return u32::from(Refusal::Room);
    }
    let stepped = machine_steps::step::step(machine_in(machine), words, operands, results, code);
    let Ok(made) = stepped.outcome else {
        return number_of(&stepped.outcome);
    };
    put_machine(machine, stepped.machine);
    put_words(released, 0, &released_words(made));
    ACCEPTED
}

#[unsafe(no_mangle)]
pub extern "C" fn wethertide_good_order(
    machine: &[u64],
    words: &[u32],
    operands: &[f64],
    results: &[f64],
) -> bool
    ensures { result ≡ fits image_length machine.now && in_order binary64 (lent words.now operands.now results.now) (machine_in machine.now) }
{
    if machine.len() < WORDS {
        return false;
    }
    good_order::good_order(machine_in(machine), words, operands, results)
}

#[unsafe(no_mangle)]
pub extern "C" fn wethertide_drained(machine: &[u64], words: &[u32]) -> bool
    ensures { result ≡ fits image_length machine.now && drained (length words.now) (machine_in machine.now) }
{
    if machine.len() < WORDS {
        return false;
    }
    steps_left::drained(machine_in(machine), words)
}

// Answers the refusal; the row of answers takes the steps left.
#[unsafe(no_mangle)]
pub extern "C" fn wethertide_steps_left(
    machine: &[u64],
    words: &[u32],
    operands: &[f64],
    results: &[f64],
    answer: &mut [u64],
) -> u32
    ensures { ByRoom (fits image_length machine.now && fits left_length answer.old)
        ((result ≡ (steps_left binary64 (lent words.now operands.now results.now) (machine_in machine.now)).refusal)
        × (answer.new ≡ sets answer.old 0 ((steps_left binary64 (lent words.now operands.now results.now) (machine_in machine.now)).left ∷ [])))
        ((result ≡ 11) × (answer.new ≡ answer.old)) }
{
    if machine.len() < WORDS {
        return u32::from(Refusal::Room);
    }
    if answer.len() < LEFT {
        return u32::from(Refusal::Room);
    }
    let left = steps_left::steps_left(machine_in(machine), words, operands, results);
    put_words(answer, 0, &[left.unwrap_or(0) as u64]);
    number_of(&left)
}

// Answers the refusal; the row of answers takes whether there is a lowest step, and its code.
#[unsafe(no_mangle)]
pub extern "C" fn wethertide_lowest_step(
    machine: &[u64],
    words: &[u32],
    operands: &[f64],
    results: &[f64],
    answer: &mut [u64],
) -> u32
    ensures { ByRoom (fits image_length machine.now && fits lowest_length answer.old)
        ((result ≡ (lowest_step binary64 (lent words.now operands.now results.now) (machine_in machine.now)).refusal)
        × (answer.new ≡ sets answer.old 0 (lowest_words (lowest_step binary64 (lent words.now operands.now results.now) (machine_in machine.now)).code)))
        ((result ≡ 11) × (answer.new ≡ answer.old)) }
{
    if machine.len() < WORDS {
        return u32::from(Refusal::Room);
    }
    if answer.len() < LOWEST {
        return u32::from(Refusal::Room);
    }
    let lowest = lowest_step(machine_in(machine), words, operands, results);
    put_words(answer, 0, &lowest_words(lowest.unwrap_or(None)));
    number_of(&lowest)
}

// Answers the refusal; the registers are the start numbers, and take those that the run leaves.
#[unsafe(no_mangle)]
pub extern "C" fn wethertide_one_at_a_time(
    words: &[u32],
    operands: &[f64],
    results: &mut [f64],
    registers: &mut [f64],
) -> u32
    ensures { ByRoom (fits register_count registers.old)
        ((result ≡ (alone_in words.now operands.now results.old registers.old).refusal)
        × (results.new ≡ (alone_in words.now operands.now results.old registers.old).run.cells)
        × (registers.new ≡ sets registers.old 0 (alone_in words.now operands.now results.old registers.old).run.registers))
        ((result ≡ 11) × (results.new ≡ results.old) × (registers.new ≡ registers.old)) }
{
    if registers.len() < Register::COUNT {
        return u32::from(Refusal::Room);
    }
    let starts = starts_in(registers);
    let ran = one_at_a_time::one_at_a_time(words, operands, results, starts);
    registers[..Register::COUNT].copy_from_slice(&ran.registers);
    number_of(&ran.outcome)
}
