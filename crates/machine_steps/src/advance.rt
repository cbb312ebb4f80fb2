// A run from release to release. The log is not here: what is released is handed to whoever keeps it.
ghost use Rattle.std.specs.Prelude.{◌≡◌};
ghost use Rattle.machine_steps.specs.Advance.{beginning, advanced, cells_after, view_progress, view_stop};

use crate::step::write_released;
use good_order::entry_refusal;
use machine_parts::{Machine, Record};
use machine_take::taking::take_codes;
use words::Areas;
use words::refusal::Refusal;

// How far a run has come, and its answer: machine, steps done, byte place of the refused code (or the length), the refusal, records written. Only
// `begun` makes one from a machine, since `going` is private: so good order, once tested, need not be tested again. (`going` is no part of the outcome,
// which is Ok at a release as at the end: `advance_determined`.)
#[derive(Clone, Copy)]
pub struct Progress {
    pub machine: Machine,
    pub steps: usize,
    pub place: usize,
    pub outcome: Result<(), Refusal>,
    pub records: usize,
    going: bool,
}

// A record that was released, and the index of the log that it goes to.
#[derive(Clone, Copy)]
pub struct Entry {
    pub index: usize,
    pub made: Record,
}

// "A run checks the list, then 6, even for an empty schedule"
pub fn begun(m: Machine, words: &[u32], operands: &[f64], results: usize) -> Progress
    ensures { view_progress result ≡ beginning m words.now operands.now results }
{
    let areas = Areas {
        operands: operands.len(),
        results,
    };
    let outcome = entry_refusal(m, words, areas);
    Progress {
        machine: m,
        steps: 0,
        place: 0,
        outcome,
        records: 0,
        going: outcome.is_ok(),
    }
}

impl Progress {
    // "then takes codes until the end or the first refusal", or up to a release, whose record it answers.
    pub fn advance(
        &mut self,
        words: &[u32],
        operands: &[f64],
        results: &mut [f64],
        schedule: &[u8],
        room: usize,
    ) -> Option<Entry>
        ensures { (view_stop self.new result ≡ advanced (view_progress self.old) words.now operands.now results.old schedule.now room)
            × (results.new ≡ cells_after (view_progress self.old) words.now operands.now results.old schedule.now room) }
    {
        if !self.going || self.place < self.steps {
            return None;
        }
        let fits = self.records < room;
        let size = results.len();
        let taken = take_codes(
            self.machine,
            words,
            operands,
            size,
            schedule,
            self.place,
            fits,
        );
        write_released(taken.outcome, results);
        self.machine = taken.machine;
        self.steps += taken.steps;
        self.place = taken.place;
        self.outcome = taken.outcome.map(|_| ());
        self.going = false;
        match taken.outcome {
            Err(_) => None,
            Ok(None) => None,
            Ok(Some(made)) => {
                let index = self.records;
                self.records = index + 1;
                self.going = true;
                Some(Entry { index, made })
            }
        }
    }
}
