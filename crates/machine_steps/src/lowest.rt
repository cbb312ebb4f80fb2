// The lowest permitted step.
ghost use Rattle.std.specs.Prelude.{◌≡◌};
ghost use Rattle.theory_machine.specs.Binary64.{binary64};
ghost use Rattle.theory_machine.specs.Entries.{lowest_permitted, lowest_step};
ghost use Rattle.machine_parts.specs.View.{view, lent, lent_with};
ghost use Rattle.machine_steps.specs.Lowest.{view_lowest, view_lowest_step};

use good_order::entry_refusal;
use machine_parts::Machine;
use machine_slots::code::CODE_LIMIT;
use machine_take::taking::take_codes;
use words::Areas;
use words::refusal::Refusal;

fn lowest_permitted(m: Machine, words: &[u32], operands: &[f64], results: usize) -> Option<u32>
    ensures { view_lowest result ≡ lowest_permitted binary64 (lent_with words.now operands.now results) (view m) }
{
    for code in 0..CODE_LIMIT {
        let schedule = [code as u8];
        let taken = take_codes(m, words, operands, results, &schedule, 0, true);
        if taken.outcome.is_ok() {
            return Some(code);
        }
    }
    None
}

// The list is checked against its areas, then the machine; none exactly when drained.
pub fn lowest_step(
    m: Machine,
    words: &[u32],
    operands: &[f64],
    results: &[f64],
) -> Result<Option<u32>, Refusal>
    ensures { view_lowest_step result ≡ lowest_step binary64 (lent words.now operands.now results.now) (view m) }
{
    entry_refusal(m, words, Areas::of(operands, results))?;
    Ok(lowest_permitted(m, words, operands, results.len()))
}
