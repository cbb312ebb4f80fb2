// Stop lines (01, "The report program"): what stopped a program, each the only line that it prints.
ghost use Rattle.std.specs.Prelude.{[]};
ghost use Rattle.printing.specs.Lines.{missing_line, refused_line, or_stopped};
ghost use Rattle.printing.specs.Faults.{told_fault};
ghost use Rattle.printing.specs.Put.{PutIfRoom, stop_limit};

use crate::Fault;
use crate::lines::{ANSWER_LIMIT, put_answer};
use crate::put::put_text;
use crate::room::has_room;

// Of a stop line without its name: its first word, a space, and a refusal with its place.
const STOP_LIMIT: usize = 8 + 1 + ANSWER_LIMIT;

fn put_missing(out: &mut [u8], at: usize, name: &[u8]) -> usize
    ensures { PutIfRoom (stop_limit name.now) out.old out.new at result (missing_line name.now) }
{
    if !has_room(out.len(), at, name.len(), STOP_LIMIT) {
        return at;
    }
    let second = put_text(out, at, b"stopped ");
    let third = put_text(out, second, name);
    let fourth = put_text(out, third, b" missing");
    put_text(out, fourth, b"\n")
}

fn put_refused(out: &mut [u8], at: usize, name: &[u8], number: u32, place: usize) -> usize
    ensures { PutIfRoom (stop_limit name.now) out.old out.new at result (refused_line name.now number place) }
{
    if !has_room(out.len(), at, name.len(), STOP_LIMIT) {
        return at;
    }
    let second = put_text(out, at, b"stopped ");
    let third = put_text(out, second, name);
    let fourth = put_text(out, third, b" ");
    put_answer(out, fourth, number, place)
}

// The line of a fault with its name; nothing without a fault.
pub fn put_line(out: &mut [u8], at: usize, name: &[u8], fault: Option<Fault>) -> usize
    ensures { PutIfRoom (stop_limit name.now) out.old out.new at result (or_stopped (told_fault fault) name.now []) }
{
    match fault {
        None => at,
        Some(Fault::Missing) => put_missing(out, at, name),
        Some(Fault::Refused(number, place)) => put_refused(out, at, name, number, place),
    }
}
