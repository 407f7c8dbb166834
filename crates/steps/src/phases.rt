// What a step stores once the word records are written: the commit record, the words in the area, the cleared kinds.
ghost use Rattle.std.specs.Prelude.{◌≡◌, ◌+◌, ◌<◌, cond, ltb};
ghost use Rattle.journal.specs.Journal.{records};
ghost use Rattle.steps.specs.Steps.{clearing, stand, stopped, slot, in_record, after_commit, commit_step, after_apply, apply_step, clear_step};
ghost use Rattle.steps.specs.Codes.{or_refused};

use crate::codes::{Kind, Phase, Refusal};
use crate::{Step, Steps, Store, records};

// The place in a record of the byte that is stored after `byte` others: 1 to 15 rising, and the kind last.
pub(crate) fn slot(byte: u32) -> u32
    ensures { (result ≡ slot byte) × (result < 16) }
{
    if byte < 15 {
        return byte + 1;
    }
    0
}

// Whether a state stands in a record of the journal.
pub(crate) fn in_record(s: Steps, journal: &[u8]) -> bool
    ensures { result ≡ in_record s journal.now }
{
    (s.index < records::records(journal) as u64) & (s.byte < 16)
}

// After a byte of the commit record: the next one, or the words are applied, if there are any.
fn after_commit(s: Steps) -> Steps
    ensures { result ≡ after_commit s }
{
    if s.byte < 15 {
        return s.stand(Phase::Committing, s.index, s.byte + 1, s.word);
    }
    if s.index == 0 {
        return s.stand(Phase::Clearing, 0, 0, 0);
    }
    s.stand(Phase::Applying, 0, 0, 0)
}

// The byte of the commit record that is stored after `byte` others: zeros, and its kind last.
fn commit_byte(byte: u32) -> u8
    ensures { result ≡ cond (ltb byte 15) 0 2 }
{
    if byte < 15 {
        return 0;
    }
    Kind::Commit.into()
}

// A byte of the commit record.
#[tactic(auto, unfolding(crate::specs::Steps::commit_step))]
pub(crate) fn commit_step(s: Steps, journal: &[u8]) -> Result<Step, Refusal>
    ensures { or_refused result ≡ commit_step s journal.now }
{
    if !in_record(s, journal) {
        return Err(Refusal::Foreign);
    }
    Ok(Step {
        store: Some(Store::Journal {
            at: 16 * s.index as usize + slot(s.byte) as usize,
            value: commit_byte(s.byte),
        }),
        next: after_commit(s),
    })
}

// After a byte of a word in the area: the next one, the next record's word, or the kinds are cleared.
#[tactic(auto, unfolding(crate::specs::Steps::after_apply))]
fn after_apply(s: Steps, journal: &[u8]) -> Steps
    requires { s.index < records journal.now }
    ensures { result ≡ after_apply s journal.now }
{
    if s.byte < 7 {
        return s.stand(Phase::Applying, s.index, s.byte + 1, s.word);
    }
    let following = s.index as usize + 1;
    if records::records(journal) <= following {
        return s.stand(Phase::Clearing, 0, 0, s.word);
    }
    if records::kind(journal, following) == u8::from(Kind::Word) {
        return s.stand(Phase::Applying, following as u64, 0, s.word);
    }
    s.stand(Phase::Clearing, 0, 0, s.word)
}

// A byte of a word in the area, which has len bytes.
#[tactic(auto, unfolding(crate::specs::Steps::apply_step))]
pub(crate) fn apply_step(s: Steps, journal: &[u8], len: usize) -> Result<Step, Refusal>
    ensures { or_refused result ≡ apply_step s journal.now len }
{
    let index = s.index as usize;
    let byte = s.byte as usize;
    if (records::records(journal) <= index) | (8 <= byte) {
        return Err(Refusal::Foreign);
    }
    let offset = records::offset(journal, index) as usize;
    if len < offset + 8 {
        return Err(Refusal::Foreign);
    }
    Ok(Step {
        store: Some(Store::Area {
            at: offset + byte,
            value: journal[16 * index + 8 + byte],
        }),
        next: after_apply(s, journal),
    })
}

// After a cleared kind: the next record's, or the end.
fn after_clear(s: Steps, journal: &[u8]) -> Steps
    requires { s.index < records journal.now }
    ensures { result ≡ cond (ltb (s.index + 1) (records journal.now)) (stand s clearing (s.index + 1) 0 s.word) (stopped s.done) }
{
    if s.index as usize + 1 < records::records(journal) {
        return s.stand(Phase::Clearing, s.index + 1, 0, s.word);
    }
    Steps::stopped(s.done)
}

// A kind cleared.
#[tactic(auto, unfolding(crate::specs::Steps::clear_step))]
pub(crate) fn clear_step(s: Steps, journal: &[u8]) -> Result<Step, Refusal>
    ensures { or_refused result ≡ clear_step s journal.now }
{
    let index = s.index as usize;
    if records::records(journal) <= index {
        return Err(Refusal::Foreign);
    }
    Ok(Step {
        store: Some(Store::Journal {
            at: 16 * index,
            value: Kind::Empty.into(),
        }),
        next: after_clear(s, journal),
    })
}
