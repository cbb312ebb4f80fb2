// The operands file of document 01 ("The report program"): big-endian patterns of 8 bytes, at most 256.
#![tactic(auto)]

ghost use Rattle.std.specs.Prelude.{◌≡◌, ◌*◌, ◌≤◌, length};
ghost use Rattle.words.specs.Refusals.{verdict};
ghost use Rattle.operands_file.specs.Operands.{pattern_size, numbers_at};
ghost use Rattle.operands_file.specs.Reading.{operands_verdict, read_answer, read_cells};
ghost use Rattle.operands_file.specs.Answers.{told_read};

use words::CELL_LIMIT;
use words::refusal::{Refusal, Refused};

const PATTERN_SIZE: usize = 8;

// "operands above 2,048 bytes"
const OPERANDS_LIMIT: usize = CELL_LIMIT * PATTERN_SIZE;

// What an accepted read gives: how many numbers were stored, and the file's length.
#[derive(Clone, Copy, Debug, PartialEq, Eq)]
pub struct OperandsRead {
    pub count: usize,
    pub place: usize,
}

// Stores the numbers of a file, one for each cell lent.
// (Tried: `cells.iter_mut().zip(patterns)`; after an adapter of `iter_mut` but `enumerate` nothing is known of the cells.)
fn store_numbers(bytes: &[u8], cells: &mut [f64])
    requires { length cells.old * pattern_size ≤ length bytes.now }
    ensures { cells.new ≡ numbers_at (length cells.old) bytes.now 0 }
{
    let (patterns, _) = bytes.as_chunks::<PATTERN_SIZE>();
    for (i, cell) in cells.iter_mut().enumerate() {
        *cell = numbers::number_of(u64::from_be_bytes(patterns[i]));
    }
}

// 4 for more than 256 patterns, then 8 for a cut one; else the file's length.
fn verdict_of(size: usize) -> Result<usize, Refused>
    ensures { verdict result ≡ operands_verdict size }
{
    if OPERANDS_LIMIT < size {
        return Err(Refusal::Cell.at(OPERANDS_LIMIT));
    }
    let whole = size / PATTERN_SIZE * PATTERN_SIZE;
    if whole < size {
        return Err(Refusal::Cut.at(whole));
    }
    Ok(size)
}

// Reads a file into the lent cells: 4, then 8, then 11 where the cells are too few.
pub fn read_operands(bytes: &[u8], cells: &mut [f64]) -> Result<OperandsRead, Refused>
    ensures { (told_read result ≡ read_answer bytes.now cells.old) × (cells.new ≡ read_cells bytes.now cells.old) }
{
    let place = verdict_of(bytes.len())?;
    let count = bytes.len() / PATTERN_SIZE;
    if cells.len() < count {
        return Err(Refusal::Room.at(0));
    }
    store_numbers(bytes, &mut cells[..count]);
    Ok(OperandsRead { count, place })
}
