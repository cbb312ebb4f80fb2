// Lines of numbers, each stored at a place of the lent bytes, or not at all where there is no room.
ghost use Rattle.printing.specs.Lines.{answer_text, count_line};
ghost use Rattle.printing.specs.Put.{PutIfRoom, answer_limit, count_limit};

use crate::put::{DECIMAL_LIMIT, put_decimal, put_text};
use crate::room::has_room;

// Two numbers, what stands between them, and the line's end.
pub(crate) const ANSWER_LIMIT: usize = DECIMAL_LIMIT + 4 + DECIMAL_LIMIT + 1;

// Of a count without its label: the digits and the line's end.
const COUNT_LIMIT: usize = DECIMAL_LIMIT + 1;

// A refusal number and its place, to the line's end. (A number, 0 for accepted too, and no Refused: `put_answer_determined` speaks of any number.)
pub fn put_answer(out: &mut [u8], at: usize, number: u32, place: usize) -> usize
    ensures { PutIfRoom answer_limit out.old out.new at result (answer_text number place) }
{
    if !has_room(out.len(), at, 0, ANSWER_LIMIT) {
        return at;
    }
    let second = put_decimal(out, at, number as usize);
    let third = put_text(out, second, b" at ");
    let fourth = put_decimal(out, third, place);
    put_text(out, fourth, b"\n")
}

// A label and a number, to the line's end.
pub fn put_count(out: &mut [u8], at: usize, label: &[u8], n: usize) -> usize
    ensures { PutIfRoom (count_limit label.now) out.old out.new at result (count_line label.now n) }
{
    if !has_room(out.len(), at, label.len(), COUNT_LIMIT) {
        return at;
    }
    let second = put_text(out, at, label);
    let third = put_decimal(out, second, n);
    put_text(out, third, b"\n")
}
