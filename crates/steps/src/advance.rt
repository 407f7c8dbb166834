// One step, on any state and any buffers: at most one byte is stored, and nothing else stores.
ghost use Rattle.std.specs.Prelude.{◌≡◌, set};
ghost use Rattle.journal.specs.Journal.{memory, store_all};
ghost use Rattle.steps.specs.Steps.{rest_step, step_of, stored, stepped, report};
ghost use Rattle.steps.specs.Codes.{or_refused};

use crate::codes::{Phase, Refusal};
use crate::{Step, Stepped, Steps, Store, phases, record};

// At the end nothing more.
fn rest(s: Steps) -> Step
    ensures { result ≡ rest_step s }
{
    Step {
        store: None,
        next: s,
    }
}

// What the next step does. A match and no closure: which step it is stands in a C caller's state.
#[tactic(auto, unfolding(crate::specs::Steps::step_of))]
fn decide(s: Steps, area: &[u8], data: &[u8], journal: &[u8]) -> Result<Step, Refusal>
    ensures { or_refused result ≡ step_of «data».now s (memory journal.now area.now) }
{
    match Phase::try_from(s.phase)? {
        Phase::Writing => record::word_step(s, journal, area, data),
        Phase::Committing => phases::commit_step(s, journal),
        Phase::Applying => phases::apply_step(s, journal, area.len()),
        Phase::Clearing => phases::clear_step(s, journal),
        Phase::End => Ok(rest(s)),
    }
}

// The one store, if it lies in the buffer.
fn put(a: &mut [u8], at: usize, value: u8)
    ensures { a.new ≡ set a.old at value }
{
    if at < a.len() {
        a[at] = value;
    }
}

// What a step stores is stored.
fn carry_out(what: Option<Store>, area: &mut [u8], journal: &mut [u8])
    ensures { memory journal.new area.new ≡ store_all (stored what) (memory journal.old area.old) }
{
    match what {
        None => {}
        Some(Store::Journal { at, value }) => put(journal, at, value),
        Some(Store::Area { at, value }) => put(area, at, value),
    }
}

// One step.
pub fn step(s: Steps, area: &mut [u8], data: &[u8], journal: &mut [u8]) -> Stepped
    ensures value { result ≡ report (step_of «data».now s (memory journal.old area.old)).next }
    ensures area_after { memory journal.new area.new ≡ stepped «data».now s (memory journal.old area.old) }
{
    let d = decide(s, area, data, journal).unwrap_or_else(Step::from);
    carry_out(d.store, area, journal);
    d.next.report()
}
