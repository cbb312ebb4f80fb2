// The lines of a report, each stored at a place of the lent bytes. (Part by part, the place handed on: so crate printing puts text.)
ghost use Rattle.std.specs.Prelude.{map, ◌+◌, ◌*◌, ◌≤◌, length};
ghost use Rattle.words.specs.Refusals.{answer_number};
ghost use Rattle.machine_parts.specs.View.{view_operand, view_register, view_record};
ghost use Rattle.theory_report.specs.Report.{refusal_line, head_text, page_text, operand_text, register_line, register_lines, record_line, record_lines, log_room};
ghost use Rattle.theory_machine.specs.Machine.{tag};
ghost use Rattle.printing.specs.Put.{PutIn};
ghost use Rattle.report_text.specs.Put.{refusal_limit, tag_limit, register_limit, registers_limit, head_limit, record_limit, page_room};

use machine_parts::{Operand, Record, Register};
use machine_steps::advance::Progress;
use printing::lines::{put_answer, put_count};
use printing::put::{put_decimal, put_pattern, put_text};
use words::refusal::number_of;

fn put_refusal(out: &mut [u8], at: usize, run: &Progress) -> usize
    requires { at + refusal_limit ≤ length out.old }
    ensures { PutIn refusal_limit out.old out.new at result (refusal_line (answer_number run.now.outcome) run.now.place) }
{
    let second = put_text(out, at, b"refusal ");
    put_answer(out, second, number_of(&run.outcome), run.place)
}

fn put_tag(out: &mut [u8], at: usize, number: u8) -> usize
    requires { at + tag_limit ≤ length out.old }
    ensures { PutIn tag_limit out.old out.new at result (operand_text (tag number)) }
{
    let second = put_text(out, at, b"tag ");
    put_decimal(out, second, usize::from(number))
}

// A number's pattern, or the tag that is waited for.
fn put_operand(out: &mut [u8], at: usize, operand: Operand) -> usize
    requires { at + tag_limit ≤ length out.old }
    ensures { PutIn tag_limit out.old out.new at result (operand_text (view_operand operand)) }
{
    match operand {
        Operand::Number(number) => put_pattern(out, at, number),
        Operand::Waits(awaited) => put_tag(out, at, awaited.0),
    }
}

fn put_register(out: &mut [u8], at: usize, number: usize, register: Register) -> usize
    requires { at + register_limit ≤ length out.old }
    ensures { PutIn register_limit out.old out.new at result (register_line number (view_register register)) }
{
    let second = put_text(out, at, b"F");
    let third = put_decimal(out, second, number);
    let fourth = put_text(out, third, b" ");
    let fifth = put_operand(out, fourth, register.operand);
    put_text(out, fifth, b"\n")
}

// "Registers are 0, 2, 4, 6."
fn put_registers(out: &mut [u8], at: usize, registers: &[Register; Register::COUNT]) -> usize
    requires { at + registers_limit ≤ length out.old }
    ensures { PutIn registers_limit out.old out.new at result (register_lines 0 (map view_register registers.now)) }
{
    let mut end = at;
    for (i, register) in registers.iter().enumerate() {
        end = put_register(out, end, 2 * i, *register);
    }
    end
}

fn put_record(out: &mut [u8], at: usize, released: Record) -> usize
    requires { at + record_limit ≤ length out.old }
    ensures { PutIn record_limit out.old out.new at result (record_line (view_record released)) }
{
    let second = put_decimal(out, at, released.place);
    let third = put_text(out, second, b" ");
    let fourth = put_decimal(out, third, released.cell);
    let fifth = put_text(out, fourth, b" ");
    let sixth = put_pattern(out, fifth, released.number);
    put_text(out, sixth, b"\n")
}

fn put_records(out: &mut [u8], at: usize, records: &[Record]) -> usize
    requires { at + length records.now * record_limit ≤ length out.old }
    ensures { PutIn (length records.now * record_limit) out.old out.new at result (record_lines (map view_record records.now)) }
{
    let mut end = at;
    for record in records {
        end = put_record(out, end, *record);
    }
    end
}

// The eight lines before the records.
fn put_head(out: &mut [u8], run: &Progress, left: usize, records: usize) -> usize
    requires { head_limit ≤ length out.old }
    ensures { PutIn head_limit out.old out.new 0 result (head_text run.now.steps (answer_number run.now.outcome) run.now.place left (map view_register run.now.machine.registers) records) }
{
    let second = put_count(out, 0, b"steps ", run.steps);
    let third = put_refusal(out, second, run);
    let fourth = put_count(out, third, b"left ", left);
    let fifth = put_registers(out, fourth, &run.machine.registers);
    put_count(out, fifth, b"log ", records)
}

// The report of a run that was made, with the steps left and its records. (`report` asks once whether a page has room; what it calls requires it.)
pub(crate) fn put_page(out: &mut [u8], run: &Progress, left: usize, records: &[Record]) -> usize
    requires { (length records.now ≤ log_room) × (page_room ≤ length out.old) }
    ensures { PutIn page_room out.old out.new 0 result (page_text run.now.steps (answer_number run.now.outcome) run.now.place left (map view_register run.now.machine.registers) (map view_record records.now)) }
{
    let second = put_head(out, run, left, records.len());
    put_records(out, second, records)
}
