// The run of a schedule, its log a row of words: three to a record.
ghost use Rattle.std.specs.Prelude.{◌≡◌, ◌&&◌};
ghost use Rattle.machine_parts.specs.View.{view};
ghost use Rattle.machine_words.specs.Image.{image_length, machine_in};
ghost use Rattle.wethertide.specs.Entries.{fits, ByRoom, ran_length, RunWords, RunLogged, run_in};
ghost use Rattle.machine_steps.specs.Advance.{view_progress};
ghost use Rattle.wethertide.specs.Logging.{logged_entry};

use crate::machines::{RECORD_WORDS, record_words};
use machine_parts::Machine;
use machine_steps::advance::{Entry, Progress, begun};
use machine_words::image::machine_in;
use machine_words::layout::WORDS;
use machine_words::row::put_words;
use machine_words::spelling::put_taken;
use words::refusal::{Refusal, number_of};

// Steps done, byte place and records.
const RAN: usize = 3;

// A record goes to its index, where the log has room.
fn put_entry(log: &mut [u64], entry: Entry)
    ensures { log.new ≡ logged_entry log.old entry }
{
    if entry.index < log.len() / RECORD_WORDS {
        put_words(log, entry.index * RECORD_WORDS, &record_words(entry.made));
    }
}

// (The loop of `run_schedule` over a log of words. One loop over both would be a trait of logs, its laws and two implementations, for three lines.)
fn run_by_value(
    m: Machine,
    words: &[u32],
    operands: &[f64],
    results: &mut [f64],
    schedule: &[u8],
    log: &mut [u64],
) -> Progress
    ensures { RunLogged (run_in words.now operands.now (view m) results.old schedule.now log.old) log.old (view_progress result) results.new log.new }
{
    let room = log.len() / RECORD_WORDS;
    let mut run = begun(m, words, operands, results.len());
    while let Some(entry) = run.advance(words, operands, results, schedule, room) {
        put_entry(log, entry);
    }
    run
}

// Answers the refusal; the row of words takes the machine where a step was taken, the log the records, and the row of answers steps done, byte place and records.
#[unsafe(no_mangle)]
pub extern "C" fn wethertide_run(
    machine: &mut [u64],
    words: &[u32],
    operands: &[f64],
    results: &mut [f64],
    schedule: &[u8],
    log: &mut [u64],
    answer: &mut [u64],
) -> u32
    ensures { ByRoom (fits image_length machine.old && fits ran_length answer.old)
        (RunWords (run_in words.now operands.now (machine_in machine.old) results.old schedule.now log.old)
        machine.old log.old answer.old result machine.new results.new log.new answer.new)
        ((result ≡ 11) × (machine.new ≡ machine.old) × (results.new ≡ results.old) × (log.new ≡ log.old) × (answer.new ≡ answer.old)) }
{
    if machine.len() < WORDS {
        return u32::from(Refusal::Room);
    }
    if answer.len() < RAN {
        return u32::from(Refusal::Room);
    }
    let m = machine_in(machine);
    let run = run_by_value(m, words, operands, results, schedule, log);
    put_taken(machine, run.machine, run.steps != 0);
    let told = [run.steps as u64, run.place as u64, run.records as u64];
    put_words(answer, 0, &told);
    number_of(&run.outcome)
}
