// The writer: one pass checks the list and measures its file, one stores it.
ghost use Rattle.std.specs.Prelude.{◌≡◌, ◌+◌, ◌≤◌, ◌<◌, length};
ghost use Rattle.std.proofs.lemmas.List.Edits.{sets};
ghost use Rattle.seven_bit.specs.SevenBits.{bytes_of};
ghost use Rattle.list_file.specs.Writing.{word_bytes, words_bytes, write_answer, write_bytes};
ghost use Rattle.list_file.specs.Answers.{told_written};
ghost use Rattle.list_file.specs.Passes.{Measuring};

use crate::Written;
use seven_bit::number_size;
use words::refusal::{Refusal, Refused, placed};
use words::{LIST_LIMIT, NO_AREAS};

fn word_size(word: u32) -> usize
    ensures { result ≡ length (word_bytes word) }
{
    number_size(words::operation_of(word))
        + (number_size(words::r1_of(word)) + number_size(words::operand_of(word)))
}

// A number that is known to fit, and to have room.
fn put_number(value: u32, bytes: &mut [u8], at: usize) -> usize
    requires { (value < 65536) × (at + length (bytes_of value) ≤ length bytes.old) }
    ensures { (result ≡ at + length (bytes_of value)) × (bytes.new ≡ sets bytes.old at (bytes_of value)) }
{
    seven_bit::put_number(value, bytes, at)
}

fn put_word(word: u32, bytes: &mut [u8], at: usize) -> usize
    requires { at + length (word_bytes word) ≤ length bytes.old }
    ensures { (result ≡ at + length (word_bytes word)) × (bytes.new ≡ sets bytes.old at (word_bytes word)) }
{
    let second = put_number(words::operation_of(word), bytes, at);
    let third = put_number(words::r1_of(word), bytes, second);
    put_number(words::operand_of(word), bytes, third)
}

// The first pass: the list check without areas, and the length of the file. (`check_list` and then a sum would be two passes.)
fn measure(list: &[u32]) -> Result<Written, Refused>
    ensures { Measuring list.now result }
{
    if LIST_LIMIT < list.len() {
        return Err(Refusal::List.at(LIST_LIMIT));
    }
    let mut length = number_size(list.len() as u32);
    for (place, word) in list.iter().enumerate() {
        placed(words::word_refusal(*word, NO_AREAS), place)?;
        length += word_size(*word);
    }
    Ok(Written {
        length,
        place: list.len(),
    })
}

// The second pass: stores the words of a list that the first accepted.
fn put_words(list: &[u32], bytes: &mut [u8], start: usize)
    requires { start + length (words_bytes list.now) ≤ length bytes.old }
    ensures { bytes.new ≡ sets bytes.old start (words_bytes list.now) }
{
    let mut at = start;
    for word in list {
        at = put_word(*word, bytes, at);
    }
}

// Writes a list as a list file into the bytes lent.
pub fn write(list: &[u32], bytes: &mut [u8]) -> Result<Written, Refused>
    ensures { (told_written result ≡ write_answer list.now bytes.old) × (bytes.new ≡ write_bytes list.now bytes.old) }
{
    let measured = measure(list)?;
    if bytes.len() < measured.length {
        return Err(Refusal::Room.at(measured.place));
    }
    let start = put_number(list.len() as u32, bytes, 0);
    put_words(list, bytes, start);
    Ok(measured)
}
