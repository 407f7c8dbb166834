// Request 9's steps: an edit with a journal, or a recovery, of which each call stores at most one byte. The state goes in by value and comes
// back. Nothing is stored but by `step`; a whole call is a decision and a loop over it.
#![tactic(auto)]

pub mod advance;
pub mod begin;
mod codes;
mod phases;
mod record;
mod records;
mod verdict;
pub mod whole;

ghost use Rattle.std.specs.Prelude.{◌≡◌, ◌<◌, ◌^◌, MatchResult, Err, true, false, eqb, length};
ghost use Rattle.steps.specs.Steps.{at_end, stand, stopped, value_answer, plan_of, carrying, can_write, report};
ghost use Rattle.steps.specs.Codes.{phase_number, or_refused};

use codes::{Phase, Refusal};
use plan::Plan;
use rules::DoneAnswer;
use words::Edit;

// Where an edit or a recovery stands: what is stored next, the answer at the end, and the plan of the edit in numbers. A caller hands it back as
// he got it; a step takes any.
#[repr(C)]
#[derive(Clone, Copy)]
pub struct Steps {
    // The record, and the offset of its word.
    pub index: u64,
    pub word: u64,
    // A C caller's struct: the phase is a number here.
    pub phase: u32,
    // How many bytes of the record or of the word are stored.
    pub byte: u32,
    pub done: DoneAnswer,
    pub checksum: u32,
    pub alignment: u32,
    pub used_size: u32,
    pub at: u32,
    pub padding: u32,
    pub tag_id: u32,
    pub data_size: u32,
    pub zeros: u32,
    pub behind: u32,
}

// What a deciding call or a step answers: the state, whether it has ended, and the answer if so.
#[repr(C)]
#[derive(Clone, Copy)]
pub struct Stepped {
    pub state: Steps,
    // A C caller's struct: a flag beside the answer is a number there.
    pub ended: u32,
    pub done: DoneAnswer,
}

// The one byte that a step stores.
#[derive(Clone, Copy)]
pub enum Store {
    Journal { at: usize, value: u8 },
    Area { at: usize, value: u8 },
}

// What a step stores, if anything, and the state that it leaves.
#[derive(Clone, Copy)]
pub struct Step {
    pub store: Option<Store>,
    pub next: Steps,
}

// A step that is refused stores nothing and is the end.
impl From<Refusal> for Step {
    ghost from_gives = { λ r s. s ≡ or_refused (Err r) };

    fn from(refusal: Refusal) -> Step {
        Step {
            store: None,
            next: Steps::stopped(refusal.into()),
        }
    }
}

impl Steps {
    // The same edit or recovery, standing elsewhere.
    pub(crate) fn stand(self, phase: Phase, index: u64, byte: u32, word: u64) -> Steps
        ensures { result ≡ stand self (phase_number phase) index byte word }
    {
        Steps {
            phase: phase.into(),
            index,
            byte,
            word,
            ..self
        }
    }

    // The end, with its answer.
    pub fn stopped(done: DoneAnswer) -> Steps
        ensures { result ≡ stopped done }
    {
        Steps {
            index: 0,
            word: 0,
            phase: Phase::End.into(),
            byte: 0,
            done,
            checksum: 0,
            alignment: 0,
            used_size: 0,
            at: 0,
            padding: 0,
            tag_id: 0,
            data_size: 0,
            zeros: 0,
            behind: 0,
        }
    }

    // A state that carries a plan. No From: a plan has to fit.
    pub(crate) fn carrying(p: Plan) -> Steps
        requires { (p.at < 2 ^ 32) × (p.padding < 2 ^ 32) × (p.zeros < 2 ^ 32) × (p.behind < 2 ^ 32) }
        ensures value { result ≡ carrying p }
        ensures checksum_bound { (result.checksum < 256) × (result.alignment < 256) }
    {
        Steps {
            index: 0,
            word: 0,
            phase: Phase::Writing.into(),
            byte: 0,
            done: valued(p.value),
            checksum: p.checksum.into(),
            alignment: p.alignment.into(),
            used_size: p.used_size,
            at: p.at as u32,
            padding: p.padding as u32,
            tag_id: p.tag_id,
            data_size: p.data_size,
            zeros: p.zeros as u32,
            behind: p.behind as u32,
        }
    }

    // The plan that a state carries.
    fn plan(self) -> Plan
        requires { (self.checksum < 256) × (self.alignment < 256) }
        ensures { result ≡ plan_of self }
    {
        Plan {
            value: self.done.value,
            checksum: self.checksum as u8,
            alignment: self.alignment as u8,
            used_size: self.used_size,
            at: self.at as usize,
            padding: self.padding as usize,
            tag_id: self.tag_id,
            data_size: self.data_size,
            zeros: self.zeros as usize,
            behind: self.behind as usize,
        }
    }

    // Whether that plan can be written into len bytes, with n bytes of data.
    #[tactic(auto, unfolding(crate::specs::Steps::can_write))]
    fn can_write(self, len: usize, n: usize) -> bool
        requires { n < 2 ^ 63 }
        ensures { result ≡ can_write self len n }
    {
        let numbers = self.at as usize
            + self.padding as usize
            + 8
            + self.zeros as usize
            + self.behind as usize;
        (self.checksum < 256)
            & (self.alignment < 256)
            & (24 <= self.at)
            & (self.at % 8 == 0)
            & ((self.padding == 0) | (8 <= self.padding))
            & (n + numbers <= len)
    }

    // The edit that a state carries, if it can be made in this area with these data.
    pub(crate) fn edit<'a>(self, area: &'a [u8], data: &'a [u8]) -> Result<Edit<'a>, Refusal>
        ensures { MatchResult result (λ e. (can_write self (length area.now) (length «data».now) ≡ true)
            × (e.plan ≡ plan_of self) × (e.area.now ≡ area.now) × (e.«data».now ≡ «data».now))
            (λ r. (can_write self (length area.now) (length «data».now) ≡ false) × (r ≡ Refusal.Foreign)) }
    {
        if !self.can_write(area.len(), data.len()) {
            return Err(Refusal::Foreign);
        }
        Ok(Edit {
            plan: self.plan(),
            area,
            data,
        })
    }

    // Whether it stands at the end.
    pub(crate) fn has_ended(self) -> bool
        ensures { result ≡ eqb self.phase at_end }
    {
        self.phase == u32::from(Phase::End)
    }

    // What is answered: at the end the answer, before it none.
    pub fn report(self) -> Stepped
        ensures { result ≡ report self }
    {
        if self.has_ended() {
            return Stepped {
                state: self,
                ended: 1,
                done: self.done,
            };
        }
        Stepped {
            state: self,
            ended: 0,
            done: valued(0),
        }
    }
}

// An answer without a place.
pub(crate) fn valued(value: u32) -> DoneAnswer
    ensures { result ≡ value_answer value }
{
    DoneAnswer {
        number: 0,
        value,
        at: 0,
    }
}
