// A fresh machine (01, "Refusal numbers").
ghost use Rattle.std.specs.Prelude.{◌≡◌};
ghost use Rattle.theory_machine.specs.Entries.{empty_machine, fresh};
ghost use Rattle.theory_machine.specs.Binary64.{binary64};
ghost use Rattle.machine_parts.specs.View.{view, lent};
ghost use Rattle.machine_parts.specs.Answers.{view_fresh};

use crate::{
    Buffer, BufferState, Machine, Operand, Register, Station, StationState, StoreBuffer, Tag,
};
use words::refusal::Refusal;
use words::{Areas, check_list_against};

// The answer of a start: the machine, and the refusal, if there is one.
#[derive(Clone, Copy)]
pub struct FreshMachine {
    pub machine: Machine,
    pub outcome: Result<(), Refusal>,
}

// At place 0 with nothing live.
fn empty_machine(numbers: [f64; Register::COUNT]) -> Machine
    ensures { view result ≡ empty_machine numbers }
{
    Machine {
        next: 0,
        registers: numbers.map(|number| Register {
            operand: Operand::Number(number),
        }),
        buffers: [Buffer {
            state: BufferState::Free,
        }; Tag::BUFFERS],
        stations: [Station {
            state: StationState::Free,
        }; Tag::STATIONS],
        stores: [StoreBuffer { pending: None }; StoreBuffer::COUNT],
    }
}

// 01: refused, a machine at place 0 with nothing live and all registers +0.
pub fn fresh(
    words: &[u32],
    operands: &[f64],
    results: &[f64],
    starts: [f64; Register::COUNT],
) -> FreshMachine
    ensures { view_fresh result ≡ fresh binary64 (lent words.now operands.now results.now) starts }
{
    match check_list_against(words, Areas::of(operands, results)) {
        Ok(_) => FreshMachine {
            machine: empty_machine(starts),
            outcome: Ok(()),
        },
        Err(refused) => FreshMachine {
            machine: empty_machine([0.0; Register::COUNT]),
            outcome: Err(refused.refusal),
        },
    }
}
