// A run of a schedule. Crate machine_steps goes on from release to release; the thin writer stores each record in the lent log.
ghost use Rattle.std.specs.Prelude.{◌≡◌, set};
ghost use Rattle.machine_steps.specs.Advance.{view_progress};
ghost use Rattle.lent_run.specs.Run.{RunAnswer};

use machine_parts::{Machine, Record};
use machine_steps::advance::{Entry, Progress, begun};

// The thin writer: the record goes to its index, where there is one.
fn put_entry(log: &mut [Record], entry: Entry)
    ensures { log.new ≡ set log.old entry.index entry.made }
{
    if entry.index < log.len() {
        log[entry.index] = entry.made;
    }
}

// "A run checks the list, then 6, even for an empty schedule; then takes codes until the end or the first refusal"
pub fn run_schedule(
    m: Machine,
    words: &[u32],
    operands: &[f64],
    results: &mut [f64],
    schedule: &[u8],
    log: &mut [Record],
) -> Progress
    ensures { RunAnswer words.now operands.now m results.old schedule.now log.old (view_progress result) results.new log.new }
{
    let room = log.len();
    let mut run = begun(m, words, operands, results.len());
    while let Some(entry) = run.advance(words, operands, results, schedule, room) {
        put_entry(log, entry);
    }
    run
}

// "The log has 2,048 records."
pub const LOG_ROOM: usize = 2048;

// What a run by value answers: the run, and the log with its records.
#[derive(Clone, Copy)]
pub struct Logged {
    pub run: Progress,
    pub log: [Record; LOG_ROOM],
}

// A run whose log is an array of the caller's own, by value. (Kept beside the lent form: `run_logged_determined` speaks of it.)
pub fn run_logged(
    m: Machine,
    words: &[u32],
    operands: &[f64],
    results: &mut [f64],
    schedule: &[u8],
    log: [Record; LOG_ROOM],
) -> Logged
    ensures { RunAnswer words.now operands.now m results.old schedule.now log (view_progress result.run) results.new result.log }
{
    let mut rows = log;
    let done = run_schedule(m, words, operands, results, schedule, &mut rows);
    Logged {
        run: done,
        log: rows,
    }
}
