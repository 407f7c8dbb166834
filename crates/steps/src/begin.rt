// Where an edit and a recovery begin: all of it is decided before the first store, and nothing is stored here.
ghost use Rattle.std.specs.Prelude.{◌≡◌, length, eqb};
ghost use Rattle.journal.specs.Journal.{memory, records, kind, kinds_up_to, pending, fits_in, refuses_journal};
ghost use Rattle.plan.specs.Plan.{after};
ghost use Rattle.words.specs.Words.{Writable};
ghost use Rattle.steps.specs.Steps.{recover_start, edit_start};
ghost use Rattle.steps.specs.Survives.{GoesAsRecovery, SurvivesWhereAccepted};
ghost use Rattle.steps.specs.Begin.{verdict_of, begin_with};

use crate::codes::{Kind, Phase, Refusal};
use crate::verdict::Verdict;
use crate::{Steps, record, records};
use plan::Plan;
use words::Edit;

// Whether the kinds of all whole records are at most `most`.
fn kinds_up_to(most: u8, journal: &[u8]) -> bool
    ensures { result ≡ kinds_up_to most (records journal.now) journal.now 0 }
{
    // All records, also behind the first that is too high: the compiler then tests many at once, which it does not with `all`.
    let mut low = true;
    for i in 0..records::records(journal) {
        low = (records::kind(journal, i) <= most) & low;
    }
    low
}

// Whether a word at this offset lies in an area of len bytes, at a multiple of 8.
pub(crate) fn fits_in(len: usize, offset: u32) -> bool
    ensures { result ≡ fits_in len offset }
{
    let end = offset as usize + 8;
    offset % 8 == 0 && end <= len
}

// What all whole records say of an area of len bytes, found from the last to the first.
fn verdict(journal: &[u8], len: usize) -> Verdict
    ensures { result ≡ verdict_of len (pending (records journal.now) journal.now 0) }
{
    let mut v = Verdict::Nothing;
    for i in (0..records::records(journal)).rev() {
        v = v.with_record(journal, i, len);
    }
    v
}

// Where a recovery begins that found this.
fn begin_with(low: bool, whole: usize, verdict: Verdict, word: bool) -> Steps
    ensures { result ≡ begin_with low whole verdict word }
{
    if !low | (verdict == Verdict::Misfits) {
        return Steps::stopped(Refusal::Foreign.into());
    }
    let end = Steps::stopped(crate::valued(0));
    if whole == 0 {
        return end;
    }
    if (verdict == Verdict::Fits) & word {
        return end.stand(Phase::Applying, 0, 0, 0);
    }
    end.stand(Phase::Clearing, 0, 0, 0)
}

// The kind of the first record is that of a word.
fn word_first(journal: &[u8]) -> bool
    ensures { result ≡ eqb (kind journal.now 0) 1 }
{
    journal.first() == Some(&Kind::Word.into())
}

// A recovery's decision, on any journal.
pub fn recover_start(area: &[u8], journal: &[u8]) -> Steps
    ensures value { result ≡ recover_start (memory journal.now area.now) }
    ensures goes_as_recovery { GoesAsRecovery (memory journal.now area.now) result }
{
    let low = kinds_up_to(u8::from(Kind::Commit), journal);
    let v = verdict(journal, area.len());
    begin_with(low, records::records(journal), v, word_first(journal))
}

// Refusal 16.
#[tactic(auto, unfolding(journal::specs::Journal::refuses_journal))]
fn refuses_journal(edit: &Edit<'_>, journal: &[u8]) -> bool
    ensures { result ≡ refuses_journal journal.now edit.now.area.now (after edit.now.plan edit.now.area.now edit.now.«data».now) }
{
    let empty = kinds_up_to(u8::from(Kind::Empty), journal);
    let words = edit.changed_words();
    !empty | (records::records(journal) <= words)
}

// An edit's last decision, once it has its plan.
pub fn edit_start(p: Plan, area: &[u8], data: &[u8], journal: &[u8]) -> Steps
    requires { Writable p (length area.now) (length «data».now) }
    ensures value { result ≡ edit_start p (after p area.now «data».now) (memory journal.now area.now) }
    ensures survives_where_accepted { SurvivesWhereAccepted «data».now journal.now area.now
        (after p area.now «data».now) result }
{
    let edit = Edit {
        plan: p,
        area,
        data,
    };
    if refuses_journal(&edit, journal) {
        return Steps::stopped(Refusal::NoRoom.into());
    }
    record::to_word(Steps::carrying(p), area.len(), 0, edit.next_changed(0))
}
