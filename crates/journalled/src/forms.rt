// The whole forms: what was decided, then the steps to the end.
// Three functions: each is two lines, and one over a start would need a contract longer than they are.
ghost use Rattle.rules.specs.Edit.{to_add, to_add_aligned, to_void};
ghost use Rattle.journal.specs.Journal.{memory};
ghost use Rattle.steps.specs.Steps.{ended};
ghost use Rattle.journalled.specs.Journalled.{Journalled};

use crate::starts;
use rules::DoneAnswer;
use steps::whole;

// Adds an entry with a tag and data; voids may be used or not. Answers the new data's offset.
pub fn add(
    area: &mut [u8],
    base: u64,
    tag: u32,
    data: &[u8],
    use_voids: bool,
    journal: &mut [u8],
) -> DoneAnswer
    ensures { Journalled (to_add tag «data».now use_voids) journal.old area.old base
        (ended result (memory journal.new area.new)) }
{
    let s = starts::add(area, base, tag, data, use_voids, journal);
    whole::finish(s, area, data, journal)
}

// Adds an entry whose data address is a multiple of 2^exponent. Answers the new data's offset.
pub fn add_aligned(
    area: &mut [u8],
    base: u64,
    tag: u32,
    data: &[u8],
    exponent: u32,
    journal: &mut [u8],
) -> DoneAnswer
    ensures { Journalled (to_add_aligned tag «data».now exponent) journal.old area.old base
        (ended result (memory journal.new area.new)) }
{
    let s = starts::add_aligned(area, base, tag, data, exponent, journal);
    whole::finish(s, area, data, journal)
}

// Turns occurrence n of a tag into a void. Answers the voided entry's offset.
pub fn void(area: &mut [u8], base: u64, tag: u32, n: u64, journal: &mut [u8]) -> DoneAnswer
    ensures { Journalled (to_void tag n) journal.old area.old base
        (ended result (memory journal.new area.new)) }
{
    let s = starts::void(area, base, tag, n, journal);
    whole::finish(s, area, &[], journal)
}
