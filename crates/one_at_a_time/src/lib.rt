// The one-at-a-time run (01's table of instructions, and "Refusal numbers").
#![tactic(auto)]

ghost use Rattle.std.specs.Prelude.{◌≡◌, [], length};
ghost use Rattle.words.specs.Check.{word_refusal};
ghost use Rattle.theory_machine.specs.Tags.{register_count};
ghost use Rattle.theory_machine.specs.Machine.{areas_of};
ghost use Rattle.theory_machine.specs.Instruction.{decode};
ghost use Rattle.theory_machine.specs.OneAtATime.{execute};
ghost use Rattle.theory_machine.specs.Entries.{one_at_a_time};
ghost use Rattle.theory_machine.specs.Binary64.{binary64};
ghost use Rattle.machine_parts.specs.View.{lent, cells_alone};
ghost use Rattle.one_at_a_time.specs.Answers.{at, view_one_at_a_time};

use machine_parts::Register;
use words::refusal::Refusal;
use words::{Areas, Form, check_list_against};

// The answer of a run: the registers, the start numbers when refused, and the refusal, if there is one.
#[derive(Clone, Copy)]
pub struct OneAtATime {
    pub registers: [f64; Register::COUNT],
    pub outcome: Result<(), Refusal>,
}

// One instruction: "R1 takes the operand"; "R1 plus, minus, times, over operand to R1"; "R1 to the result cell". The word has been checked.
#[tactic(auto, using(crate::proofs::Decoded::reads_within))]
fn execute(word: u32, registers: &mut [f64; Register::COUNT], operands: &[f64], results: &mut [f64])
    requires word_value { word_refusal (areas_of (lent [] operands.now results.old)) word ≡ 0 }
    requires registers_len { length registers.old ≡ register_count }
    ensures { at registers.new results.new ≡ execute binary64 (cells_alone operands.now) (decode word) (at registers.old results.old) }
{
    let form = words::form_of(words::operation_of(word));
    let r = Register::index_of(words::r1_of(word));
    let operand = words::operand_of(word);
    let cell = operand as usize;
    match form {
        Form::Unknown => {}
        Form::LD => {
            registers[r] = operands[cell];
        }
        Form::LDR => {
            registers[r] = registers[Register::index_of(operand)];
        }
        Form::CellArithmetic(operation) => {
            registers[r] = numbers::computed(operation, registers[r], operands[cell]);
        }
        Form::RegisterArithmetic(operation) => {
            registers[r] = numbers::computed(
                operation,
                registers[r],
                registers[Register::index_of(operand)],
            );
        }
        Form::STD => {
            results[cell] = registers[r];
        }
    }
}

// 01: refused, the start numbers are given back and nothing is written.
pub fn one_at_a_time(
    words: &[u32],
    operands: &[f64],
    results: &mut [f64],
    starts: [f64; Register::COUNT],
) -> OneAtATime
    ensures { view_one_at_a_time result results.new ≡ one_at_a_time binary64 (lent words.now operands.now results.old) (at starts results.old) }
{
    if let Err(refused) = check_list_against(words, Areas::of(operands, results)) {
        return OneAtATime {
            registers: starts,
            outcome: Err(refused.refusal),
        };
    }
    let mut registers = starts;
    for word in words {
        execute(*word, &mut registers, operands, results);
    }
    OneAtATime {
        registers,
        outcome: Ok(()),
    }
}
