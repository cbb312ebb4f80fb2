// What the program prints.
use machine_parts::{Operand, Register};
use std::io;

pub(crate) fn pattern(out: &impl Print, x: f64) -> io::Result<()> {
    let bits = numbers::pattern_of(x);
    print!(out; " {bits:016x}")
}

pub(crate) fn row(out: &impl Print, numbers: &[f64]) -> io::Result<()> {
    for x in numbers {
        pattern(out, *x)?;
    }
    Ok(())
}

pub(crate) fn registers(out: &impl Print, registers: &[Register]) -> io::Result<()> {
    for register in registers {
        match register.operand {
            Operand::Number(x) => pattern(out, x)?,
            Operand::Waits(tag) => print!(out; " tag {}", tag.0)?,
        }
    }
    Ok(())
}
