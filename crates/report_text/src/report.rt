// The report program's text (01, "The report program"), from the bytes of its three files.
ghost use Rattle.std.specs.Prelude.{option_copied};
ghost use Rattle.report_text.specs.Put.{Printed};
ghost use Rattle.report_text.specs.Files.{files_text};

use crate::Files;
use crate::begin::begin;
use crate::stop::put_stop;
use crate::told::told_run;
use words::{CELL_LIMIT, LIST_LIMIT};

// Bytes that are enough for every report.
pub const PAGE: usize = 131072;

pub fn report(files: Files, out: &mut [u8]) -> usize
    ensures { Printed out.old out.new result (files_text (option_copied files.entry.list) (option_copied files.entry.operands) (option_copied files.entry.schedule)) }
{
    if out.len() < PAGE {
        return 0;
    }
    // Rows of fixed size, since the report is made without a heap.
    let mut words = [0u32; LIST_LIMIT];
    let mut cells = [0.0f64; CELL_LIMIT];
    match begin(files, &mut words, &mut cells) {
        Err(stopped) => put_stop(out, stopped),
        Ok(begun) => {
            let schedule = files.schedule.unwrap_or(&[]);
            told_run(
                out,
                &words[..begun.words],
                &cells[..begun.operands],
                schedule,
            )
        }
    }
}
