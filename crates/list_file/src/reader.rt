// The reader, in one pass over the file.
ghost use Rattle.std.specs.Prelude.{◌≡◌, ◌≤◌, ◌<◌, length, take};
ghost use Rattle.words.specs.Instructions.{word_of, list_limit};
ghost use Rattle.words.specs.Refusals.{answer_number};
ghost use Rattle.seven_bit.specs.Told.{told};
ghost use Rattle.list_file.specs.Reading.{word_at, words_at, count_refusal, answered, stored, read_answer, read_words};
ghost use Rattle.list_file.specs.Answers.{told_read};
ghost use Rattle.list_file.specs.Passes.{kept_by};

use crate::ListRead;
use seven_bit::{Parsed, number_at};
use words::refusal::{Refusal, Refused, placed};
use words::{LIST_LIMIT, NO_AREAS, operand_refusal, operation_refusal, register_refusal};

// After the count 1, then 11 if the word buffer is short.
fn count_refusal(room: usize, count: usize) -> Result<(), Refusal>
    ensures { answer_number result ≡ count_refusal room count }
{
    if LIST_LIMIT < count {
        return Err(Refusal::List);
    }
    if room < count {
        return Err(Refusal::Room);
    }
    Ok(())
}

// The word of three fields, each within its bits.
fn word_of(operation: u32, r1: u32, operand: u32) -> u32
    requires { (operation < 65536) × (r1 < 16) × (operand < 4096) }
    ensures { result ≡ word_of operation r1 operand }
{
    (operation << 16) | ((r1 << 12) | operand)
}

// A word at a place: operation, R1 and operand, each with its own refusal.
fn word_at(bytes: &[u8], at: usize) -> Result<Parsed, Refused>
    ensures { told result ≡ word_at bytes.now at }
{
    let operation = number_at(bytes, at)?;
    placed(operation_refusal(operation.value), at)?;
    let r1 = number_at(bytes, operation.next)?;
    placed(register_refusal(r1.value), operation.next)?;
    let operand = number_at(bytes, r1.next)?;
    let own = operand_refusal(operation.value, operand.value, NO_AREAS);
    placed(own, r1.next)?;
    Ok(Parsed {
        value: word_of(operation.value, r1.value, operand.value),
        next: operand.next,
    })
}

// A word for each place of the row lent, to the file's end; the row keeps them.
fn keep_words(bytes: &[u8], start: usize, kept: &mut [u32]) -> Result<(), Refused>
    ensures { words_at (length kept.old) bytes.now start ≡ kept_by result kept.new (length bytes.now) }
{
    let mut at = start;
    for place in kept.iter_mut() {
        let word = word_at(bytes, at)?;
        *place = word.value;
        at = word.next;
    }
    if at < bytes.len() {
        return Err(Refusal::Left.at(at));
    }
    Ok(())
}

// A file whose count was accepted. "A refused call .. writes nothing" (01), so the words wait until the whole file is accepted, in a row of fixed size: the
// library has no heap.
fn read_words(
    bytes: &[u8],
    start: usize,
    count: usize,
    words: &mut [u32],
) -> Result<ListRead, Refused>
    requires { (count ≤ list_limit) × (count ≤ length words.old) }
    ensures { (told_read result ≡ answered (words_at count bytes.now start)) × (words.new ≡ stored (words_at count bytes.now start) words.old) }
{
    let mut kept = [0u32; LIST_LIMIT];
    keep_words(bytes, start, &mut kept[..count])?;
    words[..count].copy_from_slice(&kept[..count]);
    Ok(ListRead {
        count,
        place: bytes.len(),
    })
}

// Reads a list file into the words lent.
pub fn read(bytes: &[u8], words: &mut [u32]) -> Result<ListRead, Refused>
    ensures { (told_read result ≡ read_answer bytes.now words.old) × (words.new ≡ read_words bytes.now words.old) }
{
    let count = number_at(bytes, 0)?;
    placed(count_refusal(words.len(), count.value as usize), 0)?;
    read_words(bytes, count.next, count.value as usize, words)
}
