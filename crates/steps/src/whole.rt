// A whole call: what was decided, and then the steps to the end.
ghost use Rattle.std.specs.Prelude.{◌≡◌, []};
ghost use Rattle.journal.specs.Journal.{memory};
ghost use Rattle.steps.specs.Steps.{recover_start, ended, to_end, recovered};

use crate::{Steps, advance, begin};
use rules::DoneAnswer;

// The steps from any state to the end. Answers what the last of them does.
pub fn finish(from: Steps, area: &mut [u8], data: &[u8], journal: &mut [u8]) -> DoneAnswer
    ensures { ended result (memory journal.new area.new)
        ≡ to_end «data».now from (memory journal.old area.old) }
{
    let mut s = from;
    while !s.has_ended() {
        s = advance::step(s, area, data, journal).state;
    }
    s.done
}

// Recovers what a cut has left: a committed edit is made whole, and the journal is cleared.
pub fn recover(area: &mut [u8], journal: &mut [u8]) -> DoneAnswer
    ensures area_after { ended result (memory journal.new area.new) ≡ recovered (memory journal.old area.old) }
    ensures by_steps { ended result (memory journal.new area.new)
        ≡ to_end [] (recover_start (memory journal.old area.old)) (memory journal.old area.old) }
{
    let s = begin::recover_start(area, journal);
    finish(s, area, b"", journal)
}
