// A run: the machine that it starts from, its schedule, and what is told of it.
ghost use Rattle.std.specs.Prelude.{◌≡◌, ◌≤◌, length};
ghost use Rattle.machine_parts.specs.View.{view, lent};
ghost use Rattle.theory_report.specs.Report.{start_of, run_of, ran_text};
ghost use Rattle.printing.specs.Put.{PutIn};
ghost use Rattle.report_text.specs.Put.{page_room};
ghost use Rattle.report_text.specs.Files.{report_lent};

use crate::page::put_page;
use lent_run::run::{LOG_ROOM, run_schedule};
use machine_parts::start::fresh;
use machine_parts::{Machine, Record, Register};
use steps_left::steps_left;
use words::CELL_LIMIT;

// All registers start at +0.
fn start(words: &[u32], operands: &[f64], results: &[f64]) -> Machine
    ensures { view result ≡ start_of (lent words.now operands.now results.now) }
{
    fresh(words, operands, results, [0.0; Register::COUNT]).machine
}

// "All registers and 256 result cells start at +0. The log has 2,048 records."
pub(crate) fn told_run(out: &mut [u8], words: &[u32], operands: &[f64], schedule: &[u8]) -> usize
    requires { page_room ≤ length out.old }
    ensures { PutIn page_room out.old out.new 0 result (ran_text (report_lent words.now operands.now) (run_of (report_lent words.now operands.now) schedule.now)) }
{
    // Cells and log of fixed size, as 01 says: the report is made without a heap.
    let mut results = [0.0f64; CELL_LIMIT];
    let machine = start(words, operands, &results);
    let mut log = [Record {
        place: 0,
        cell: 0,
        number: 0.0,
    }; LOG_ROOM];
    let run = run_schedule(machine, words, operands, &mut results, schedule, &mut log);
    let left = steps_left(run.machine, words, operands, &results).unwrap_or(0);
    put_page(out, &run, left, &log[..run.records])
}
