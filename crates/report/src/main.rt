// The report program of document 01. It is given three names: list, operands and schedule. Names after the third are ignored.
#![tactic(auto)]

use named_file::read_named;
use report_text::report::{PAGE, report};
use std::io;
use std::rt::{Env, Files};

// One byte more than a file may have.
const FILE_ROOM: usize = 65537;

// Reads the files, and writes their report. What cannot be written ends the program with the error.
fn print_report<R: Env + Files + Print>(
    rt: &R,
    list: &mut [u8],
    operands: &mut [u8],
    schedule: &mut [u8],
    out: &mut [u8],
) -> io::Result<()> {
    let files = report_text::Files {
        list: read_named(rt, 1, list).map(|n| &list[..n]),
        operands: read_named(rt, 2, operands).map(|n| &operands[..n]),
        schedule: read_named(rt, 3, schedule).map(|n| &schedule[..n]),
    };
    let n = report(files, out);
    rt.write_all(&out[..n])
}

// Each buffer has one byte more than a file may have, in rows of fixed size: the report is made without a heap.
fn main(rt: HostRuntime) -> io::Result<()> {
    let mut list = [0u8; FILE_ROOM];
    let mut operands = [0u8; FILE_ROOM];
    let mut schedule = [0u8; FILE_ROOM];
    let mut out = [0u8; PAGE];
    print_report(&rt, &mut list, &mut operands, &mut schedule, &mut out)
}
