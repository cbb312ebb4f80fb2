// Issue: which slots an instruction takes, "always using the lowest-numbered free one".
ghost use Rattle.machine_take.specs.Changes.{view_lent, instruction_for, RegistersIn, IssueOf, IssuesNext};

use crate::change::Lent;
use machine_free::{cell_live, lowest_buffer, lowest_station, lowest_store};
use machine_parts::{Machine, Register};
use numbers::Operation;
use words::refusal::Refusal;
use words::{Areas, Form, word_refusal};

// What an issue takes, by index from 0.
#[derive(Clone, Copy)]
pub(crate) enum Issue {
    // a load, or arithmetic with a cell: R1, the cell, the buffer; of arithmetic also the station
    Loads(usize, usize, usize),
    TakesCell(Operation, usize, usize, usize, usize),
    // a copy, or arithmetic with a register: R1 and the other register; of arithmetic also the station
    Copies(usize, usize),
    TakesRegister(Operation, usize, usize, usize),
    // R1, the cell and the store buffer
    Stores(usize, usize, usize),
}

// By the word's form, R1's index and the operand.
fn slots_for(m: &Machine, form: Form, r: usize, operand: u32) -> Result<Issue, Refusal>
    requires { RegistersIn (instruction_for form r operand) }
    ensures { IssueOf m.now (instruction_for form r operand) result }
{
    let cell = operand as usize;
    match form {
        Form::Unknown => Err(Refusal::Operation),
        Form::LD => {
            let b = lowest_buffer(m.buffers).ok_or(Refusal::NotNow)?;
            Ok(Issue::Loads(r, cell, b))
        }
        Form::LDR => Ok(Issue::Copies(r, Register::index_of(operand))),
        Form::CellArithmetic(o) => {
            let b = lowest_buffer(m.buffers).ok_or(Refusal::NotNow)?;
            let u = lowest_station(m.stations, o).ok_or(Refusal::NotNow)?;
            Ok(Issue::TakesCell(o, r, cell, b, u))
        }
        Form::RegisterArithmetic(o) => {
            let u = lowest_station(m.stations, o).ok_or(Refusal::NotNow)?;
            Ok(Issue::TakesRegister(o, r, Register::index_of(operand), u))
        }
        Form::STD => {
            if cell_live(m.stores, cell) {
                return Err(Refusal::NotNow);
            }
            let t = lowest_store(m.stores).ok_or(Refusal::NotNow)?;
            Ok(Issue::Stores(r, cell, t))
        }
    }
}

// "for an issue at the list's end 7, else 2, 3, 4 for that word, then 7"
pub(crate) fn next_issue(m: &Machine, lent: Lent) -> Result<Issue, Refusal>
    ensures { IssuesNext m.now (view_lent lent.entry) result }
{
    let Some(&word) = lent.words.get(m.next) else {
        return Err(Refusal::NotNow);
    };
    let areas = Areas {
        operands: lent.operands.len(),
        results: lent.results,
    };
    word_refusal(word, areas)?;
    let r = Register::index_of(words::r1_of(word));
    let form = words::form_of(words::operation_of(word));
    slots_for(m, form, r, words::operand_of(word))
}
