// Good order of a whole machine (01, "Good order"), and the check that entries begin with.
#![tactic(auto)]

mod givers;
mod row_rules;
mod slot_rules;

ghost use Rattle.std.specs.Prelude.{◌≡◌};
ghost use Rattle.words.specs.Refusals.{answer_number};
ghost use Rattle.theory_machine.specs.GoodOrder.{good_order};
ghost use Rattle.theory_machine.specs.Steps.{in_order};
ghost use Rattle.theory_machine.specs.Entries.{entry_refusal};
ghost use Rattle.theory_machine.specs.Binary64.{binary64};
ghost use Rattle.machine_parts.specs.View.{view, lent};

use machine_parts::Machine;
use words::refusal::Refusal;
use words::{Areas, check_list_against};

// With the list, and the lengths of its areas.
pub fn in_good_order(m: Machine, words: &[u32], areas: Areas) -> bool
    ensures { result ≡ good_order binary64 words.now areas (view m) }
{
    let places = givers::giver_places(m.buffers, m.stations);
    m.next <= words.len()
        && row_rules::buffers_good(m.buffers, m.next, areas.operands)
        && row_rules::stations_good(m.stations, m.next, &places)
        && row_rules::registers_good(m.registers, &places)
        && row_rules::stores_good(m.stores, m.next, areas.results, &places)
        && row_rules::stores_apart(m.stores)
}

// "check the list and then 6": what the steps left, the lowest step and a run are refused with, if anything.
pub fn entry_refusal(m: Machine, words: &[u32], areas: Areas) -> Result<(), Refusal>
    ensures { answer_number result ≡ entry_refusal binary64 words.now areas (view m) }
{
    check_list_against(words, areas)?;
    if !in_good_order(m, words, areas) {
        return Err(Refusal::Order);
    }
    Ok(())
}

// Whether the machine is in good order, with the lent list and areas.
pub fn good_order(m: Machine, words: &[u32], operands: &[f64], results: &[f64]) -> bool
    ensures { result ≡ in_order binary64 (lent words.now operands.now results.now) (view m) }
{
    in_good_order(m, words, Areas::of(operands, results))
}
