// Steps left, and whether a machine is drained (01, "Steps" and "Drained").
#![tactic(auto)]

ghost use Rattle.std.specs.Prelude.{◌≡◌, ℕ, ◌<◌, ◌^◌, length};
ghost use Rattle.theory_machine.specs.Rows.{sum};
ghost use Rattle.theory_machine.specs.Instruction.{decode};
ghost use Rattle.theory_machine.specs.GoodOrder as theory;
ghost use Rattle.theory_machine.specs.Count.{instruction_left, buffer_left, station_left, store_left};
ghost use Rattle.theory_machine.specs.Entries.{steps_left};
ghost use Rattle.theory_machine.specs.Binary64.{binary64};
ghost use Rattle.machine_parts.specs.View.{view_buffer, view_station, view_store, view, lent};
ghost use Rattle.steps_left.specs.Answers.{view_left};
ghost use Rattle.steps_left.specs.SlotsLeft.{SlotsLeft};

use good_order::entry_refusal;
use machine_parts::{Buffer, BufferState, Machine, Station, StationState, StoreBuffer};
use words::refusal::Refusal;
use words::{Areas, Form};

// What steps are left of: a slot, or a word that is not issued.
trait Counted {
    ghost weight: { Self → ℕ };

    fn left(&self) -> usize
        ensures { result ≡ weight self.now };
}

impl Counted for Buffer {
    ghost weight = { λ b. buffer_left (view_buffer b) };

    fn left(&self) -> usize {
        match self.state {
            BufferState::Free => 0,
            BufferState::Waiting(_) => 2,
            BufferState::Full(_) => 1,
        }
    }
}

impl Counted for Station {
    ghost weight = { λ s. station_left (view_station s) };

    fn left(&self) -> usize {
        match self.state {
            StationState::Free => 0,
            StationState::Holding(_) => 2,
            StationState::Done(_) => 1,
        }
    }
}

impl Counted for StoreBuffer {
    ghost weight = { λ s. store_left (view_store s) };

    fn left(&self) -> usize {
        match self.pending {
            None => 0,
            Some(_) => 1,
        }
    }
}

impl Counted for u32 {
    ghost weight = { λ w. instruction_left (decode w) };

    #[tactic(auto, unfolding(theory_machine::specs::Instruction::decode))]
    fn left(&self) -> usize {
        match words::form_of(words::operation_of(*self)) {
            Form::Unknown => 0,
            Form::LD => 3,
            Form::LDR => 1,
            Form::CellArithmetic(_) => 5,
            Form::RegisterArithmetic(_) => 3,
            Form::STD => 2,
        }
    }
}

fn row_left<T: Counted>(row: &[T]) -> usize
    requires { sum T.weight row.now < 2 ^ 64 }
    ensures { result ≡ sum T.weight row.now }
{
    let mut left = 0;
    for counted in row {
        left += counted.left();
    }
    left
}

fn slots_left(m: Machine) -> usize
    ensures { SlotsLeft (view m) result }
{
    row_left(&m.buffers) + row_left(&m.stations) + row_left(&m.stores)
}

// 01: the list is checked against its areas, then the machine.
pub fn steps_left(
    m: Machine,
    words: &[u32],
    operands: &[f64],
    results: &[f64],
) -> Result<usize, Refusal>
    ensures { view_left result ≡ steps_left binary64 (lent words.now operands.now results.now) (view m) }
{
    entry_refusal(m, words, Areas::of(operands, results))?;
    Ok(row_left(&words[m.next..]) + slots_left(m))
}

// 01: the next place equals the length, and every buffer, station and store buffer is free.
#[tactic(auto, unfolding(theory_machine::specs::GoodOrder::drained))]
pub fn drained(m: Machine, words: &[u32]) -> bool
    ensures { result ≡ theory.drained (length words.now) (view m) }
{
    m.next == words.len() && slots_left(m) == 0
}
