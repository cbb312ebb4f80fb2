// Words and lists of document 01: fields, the instruction table, and the check of a word and of a list.
#![tactic(auto)]

ghost use Rattle.std.specs.Prelude.{◌≡◌, ◌%◌, cond, eqb, length};
ghost use Rattle.words.specs.Instructions.{operation_field, r1_field, operand_field, form_of};
ghost use Rattle.words.specs.Operands.{held_refusal};
ghost use Rattle.words.specs.Check.{operation_refusal, register_refusal, operand_refusal, word_refusal, list_check, list_check_alone};
ghost use Rattle.words.specs.Refusals.{answer_number, verdict};

use crate::refusal::{Refusal, Refused, placed};
use numbers::Operation;

pub mod refusal;

// 01: "A list has 0 to 4,096 words."
pub const LIST_LIMIT: usize = 4096;
// 01: "Cells are 0 to 255."
pub const CELL_LIMIT: usize = 256;

// The lengths of the two areas, where nothing else of them is wanted.
#[derive(Clone, Copy)]
pub struct Areas {
    pub operands: usize,
    pub results: usize,
}

impl Areas {
    pub fn of(operands: &[f64], results: &[f64]) -> Areas
        ensures { result ≡ record { operands = length operands.now; results = length results.now } }
    {
        Areas {
            operands: operands.len(),
            results: results.len(),
        }
    }
}

// Without areas only the cell limit speaks.
pub const NO_AREAS: Areas = Areas {
    operands: CELL_LIMIT,
    results: CELL_LIMIT,
};

// Below it the even numbers are the registers.
const REGISTER_LIMIT: usize = 8;

// STD, and the last operation of all.
const STORE: u32 = 11;

const LAST_OPERATION: u32 = 11;

// What a word asks for, by its operation's number. An unknown one is a case and no Option of a form: `form_of` answers the theory's table, which
// holds it.
#[derive(Clone, Copy)]
pub enum Form {
    Unknown,
    LD,
    LDR,
    CellArithmetic(Operation),
    RegisterArithmetic(Operation),
    STD,
}

pub fn operation_of(word: u32) -> u32
    ensures { result ≡ operation_field word }
{
    word >> 16
}

pub fn r1_of(word: u32) -> u32
    ensures { result ≡ r1_field word }
{
    (word >> 12) & 0xF
}

pub fn operand_of(word: u32) -> u32
    ensures { result ≡ operand_field word }
{
    word & 0xFFF
}

// 01's instruction table.
pub fn form_of(operation: u32) -> Form
    ensures { result ≡ form_of operation }
{
    match operation {
        1 => Form::LD,
        2 => Form::LDR,
        3 => Form::CellArithmetic(Operation::Add),
        4 => Form::RegisterArithmetic(Operation::Add),
        5 => Form::CellArithmetic(Operation::Subtract),
        6 => Form::RegisterArithmetic(Operation::Subtract),
        7 => Form::CellArithmetic(Operation::Multiply),
        8 => Form::RegisterArithmetic(Operation::Multiply),
        9 => Form::CellArithmetic(Operation::Divide),
        10 => Form::RegisterArithmetic(Operation::Divide),
        STORE => Form::STD,
        _ => Form::Unknown,
    }
}

pub fn operation_refusal(operation: u32) -> Result<(), Refusal>
    ensures { answer_number result ≡ operation_refusal operation }
{
    match operation {
        1..=LAST_OPERATION => Ok(()),
        _ => Err(Refusal::Operation),
    }
}

// (A test, and no match that answers: of that the compiler makes a test of a bit, which is slower in the list's check.)
pub fn register_refusal(register: u32) -> Result<(), Refusal>
    ensures { answer_number result ≡ register_refusal register }
{
    if matches!(register, 0 | 2 | 4 | 6) {
        Ok(())
    } else {
        Err(Refusal::Register)
    }
}

fn chosen<T: Copy>(test: bool, yes: T, no: T) -> T
    ensures { result ≡ cond test yes no }
{
    if test { yes } else { no }
}

// An operand's refusal, held to a register's number or to the cells of an area. What it is held to is chosen first, and then tested in one way: a
// branch on the kind of operand would be mispredicted at every other word of a mixed list. (`odd`, 1 for a register, is reckoned and not chosen: where
// it is chosen, the compiler makes a branch of the choice of an area in the list's check, which takes half as long again, docs/PERFORMANCE.md.)
fn held_refusal(operand: u32, operation: u32, area: usize) -> Result<(), Refusal>
    ensures { answer_number result ≡ held_refusal operand (eqb (operation % 2) 0) area }
{
    let at = operand as usize;
    let odd = (1 - operation % 2) as usize;
    let limit = chosen(odd != 0, REGISTER_LIMIT, area);
    let refusal = chosen(odd != 0, Refusal::Register, Refusal::Cell);
    if limit <= at {
        return Err(refusal);
    }
    if CELL_LIMIT <= at {
        return Err(refusal);
    }
    if at & odd != 0 {
        return Err(refusal);
    }
    Ok(())
}

// The operand's own refusal, against the areas. An unknown operation has none; of the known ones those that take
// a register are the even ones. (By the number and not the form: a branch on the form misses the bar of list reads and writes, docs/PERFORMANCE.md.)
pub fn operand_refusal(operation: u32, operand: u32, areas: Areas) -> Result<(), Refusal>
    ensures { answer_number result ≡ operand_refusal areas (form_of operation) operand }
{
    if operation_refusal(operation).is_err() {
        return Ok(());
    }
    let area = chosen(operation == STORE, areas.results, areas.operands);
    held_refusal(operand, operation, area)
}

// Inside a word 2, then R1's 3, then the operand's 3 or 4.
pub fn word_refusal(word: u32, areas: Areas) -> Result<(), Refusal>
    ensures { answer_number result ≡ word_refusal areas word }
{
    let operation = operation_of(word);
    operation_refusal(operation)?;
    register_refusal(r1_of(word))?;
    operand_refusal(operation, operand_of(word), areas)
}

// The list against its areas: 1 at place 4,096, else the first bad word with its place, else the length.
pub fn check_list_against(words: &[u32], areas: Areas) -> Result<usize, Refused>
    ensures { verdict result ≡ list_check areas words.now }
{
    if LIST_LIMIT < words.len() {
        return Err(Refusal::List.at(LIST_LIMIT));
    }
    for (place, word) in words.iter().enumerate() {
        placed(word_refusal(*word, areas), place)?;
    }
    Ok(words.len())
}

// The list alone: no areas are lent, so only the cell limit speaks.
pub fn check_list(words: &[u32]) -> Result<usize, Refused>
    ensures { verdict result ≡ list_check_alone words.now }
{
    check_list_against(words, NO_AREAS)
}
