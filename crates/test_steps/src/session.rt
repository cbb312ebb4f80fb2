// One session: a fresh machine, the session's changes and codes, and how all stands at the end.
use crate::changes::changes;
use crate::say::{pattern, registers, row};
use crate::scan::Numbers;
use good_order::good_order;
use machine_parts::start::fresh;
use machine_parts::{Machine, Register};
use machine_steps::lowest::lowest_step;
use machine_steps::step::step;
use one_at_a_time::one_at_a_time;
use std::io;
use steps_left::{drained, steps_left};
use words::refusal::number_of;

// What a session lends, and its machine.
#[derive(Drop)]
struct Running<'a, 'b> {
    words: &'a [u32],
    operands: &'a [f64],
    results: &'b mut [f64],
    machine: Machine,
}

impl Running<'_, '_> {
    // One step, and what it released.
    fn code(&mut self, out: &impl Print, code: u32) -> io::Result<()> {
        let stepped = step(self.machine, self.words, self.operands, self.results, code);
        self.machine = stepped.machine;
        print!(out; "{code} {}", number_of(&stepped.outcome))?;
        if let Ok(Some(record)) = stepped.outcome {
            print!(out; " release {} {}", record.place, record.cell)?;
            pattern(out, record.number)?;
        }
        println!(out)
    }

    // Good order, drained, steps left, lowest step, registers and result cells.
    fn standing(&self, out: &impl Print) -> io::Result<()> {
        let m = self.machine;
        let order = u8::from(good_order(m, self.words, self.operands, self.results));
        let drained = u8::from(drained(m, self.words));
        let left = steps_left(m, self.words, self.operands, self.results);
        print!(out;
            "order {order} drained {drained} left {} {}",
            number_of(&left),
            left.unwrap_or(0)
        )?;
        let lowest = lowest_step(m, self.words, self.operands, self.results);
        print!(out; " lowest {} ", number_of(&lowest))?;
        match lowest {
            Ok(Some(code)) => println!(out; "{code}")?,
            _ => println!(out; "none")?,
        }
        print!(out; "registers")?;
        registers(out, &m.registers)?;
        print!(out; "\ncells")?;
        row(out, self.results)?;
        println!(out)
    }

    // The one-at-a-time run from the same start, with result cells of its own.
    fn alone(
        &self,
        out: &impl Print,
        cells: &mut [f64],
        starts: [f64; Register::COUNT],
    ) -> io::Result<()> {
        let ran = one_at_a_time(self.words, self.operands, cells, starts);
        print!(out; "alone {}", number_of(&ran.outcome))?;
        row(out, &ran.registers)?;
        row(out, cells)?;
        println!(out)
    }
}

fn run(
    out: &impl Print,
    numbers: &mut Numbers,
    words: &[u32],
    operands: &[f64],
    results: &mut [f64],
    cells: &mut [f64],
) -> io::Result<()> {
    let mut starts = [0.0; Register::COUNT];
    for start in &mut starts {
        *start = numbers.quarters();
    }
    let first = fresh(words, operands, results, starts);
    println!(out; "fresh {}", number_of(&first.outcome))?;
    let mut machine = first.machine;
    changes(numbers, &mut machine);
    let mut running = Running {
        words,
        operands,
        results,
        machine,
    };
    for _ in 0..numbers.next() {
        running.code(out, numbers.word())?;
    }
    running.standing(out)?;
    running.alone(out, cells, starts)
}

// The lists and areas that a session names.
pub(crate) fn session(out: &impl Print, bytes: &[u8]) -> io::Result<()> {
    let mut numbers = Numbers::of(bytes);
    // The rooms are part of the test: one word more than a list may have, and cells few enough to print.
    let mut words = [0u32; 4097];
    let mut operands = [0.0f64; 16];
    let mut results = [0.0f64; 16];
    let mut cells = [0.0f64; 16];
    let count = numbers.words(&mut words);
    let have = numbers.row(&mut operands);
    let room = numbers.next();
    if 16 < room {
        return Ok(());
    }
    run(
        out,
        &mut numbers,
        &words[..count],
        &operands[..have],
        &mut results[..room],
        &mut cells[..room],
    )
}
