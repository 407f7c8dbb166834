// A byte of a word record, while the area is still the old one.
ghost use Rattle.std.specs.Prelude.{◌≡◌, ◌+◌, ◌%◌, ◌≤◌, ◌<◌, ◌^◌, ◌∷◌, length, get_or};
ghost use Rattle.journal.specs.Journal.{part, body_of};
ghost use Rattle.plan.specs.Plan.{after};
ghost use Rattle.steps.specs.Steps.{at_word, to_word, after_word, word_step};
ghost use Rattle.steps.specs.Codes.{or_refused};

use crate::codes::{Kind, Phase, Refusal};
use crate::{Step, Steps, Store, phases};
use words::{Edit, bytes};

// Byte k of the record of the word at `word`, in the area that the edit makes.
fn word_byte(edit: &Edit<'_>, word: usize, k: usize) -> u8
    requires { (word + 8 ≤ length edit.now.area.now) × (k < 16) }
    ensures { let new = after edit.now.plan edit.now.area.now edit.now.«data».now in
        result ≡ get_or (1 ∷ body_of word (part new word 8)) k 0 }
{
    match k {
        0 => Kind::Word.into(),
        1..=3 => 0,
        4..=7 => bytes::byte_of((word % 0x1_0000_0000) as u32, k - 4),
        _ => edit.byte_after(word + (k - 8)),
    }
}

// On to record index for the word at `word`, or for the commit where that is the area's length.
pub(crate) fn to_word(s: Steps, len: usize, index: u64, word: usize) -> Steps
    ensures { result ≡ to_word s len index word }
{
    if word == len {
        return s.stand(Phase::Committing, index, 0, 0);
    }
    s.stand(Phase::Writing, index, 0, word as u64)
}

// After a byte of a word record: the next one, or on to the next word that changes.
#[tactic(auto, unfolding(crate::specs::Steps::after_word))]
fn after_word(s: Steps, edit: &Edit<'_>) -> Steps
    requires { (s.word + 8 ≤ length edit.now.area.now) × (s.word % 8 ≡ 0) × (s.index < 2 ^ 60) }
    ensures { result ≡ after_word s edit.now.area.now (after edit.now.plan edit.now.area.now edit.now.«data».now) }
{
    if s.byte < 15 {
        return s.stand(Phase::Writing, s.index, s.byte + 1, s.word);
    }
    to_word(
        s,
        edit.area.len(),
        s.index + 1,
        edit.next_changed(s.word as usize + 8),
    )
}

// Whether a state stands at a word of an area of len bytes.
fn at_word(s: Steps, len: usize) -> bool
    ensures { result ≡ at_word s len }
{
    (s.word % 8 == 0) & (s.word < (len / 8 * 8) as u64)
}

// A byte of a word record.
#[tactic(auto, unfolding(crate::specs::Steps::word_step))]
pub(crate) fn word_step(s: Steps, journal: &[u8], area: &[u8], data: &[u8]) -> Result<Step, Refusal>
    ensures { or_refused result ≡ word_step «data».now s journal.now area.now }
{
    if !phases::in_record(s, journal) | !at_word(s, area.len()) {
        return Err(Refusal::Foreign);
    }
    let edit = s.edit(area, data)?;
    let k = phases::slot(s.byte) as usize;
    Ok(Step {
        store: Some(Store::Journal {
            at: 16 * s.index as usize + k,
            value: word_byte(&edit, s.word as usize, k),
        }),
        next: after_word(s, &edit),
    })
}
