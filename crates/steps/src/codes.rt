// What stands as a number in a state, in the journal's bytes and in an answer: phases, kinds and the two refusals of a journal.
ghost use Rattle.std.specs.Prelude.{◌≡◌, ◌<◌, MatchResult};
ghost use Rattle.steps.specs.declared.codes.Refusal.TheVariants.{Foreign};
ghost use Rattle.steps.specs.Steps.{refusal_answer};
ghost use Rattle.steps.specs.Codes.{phase_number, kind_number, refusal_number};

use rules::DoneAnswer;

// What an edit or a recovery does next: a word record is written, the commit record is, words are applied, kinds are cleared; the end.
#[derive(Clone, Copy, PartialEq, Eq)]
pub(crate) enum Phase {
    Writing,
    Committing,
    Applying,
    Clearing,
    End,
}

// The kind of a record, its first byte.
#[derive(Clone, Copy, PartialEq, Eq)]
pub(crate) enum Kind {
    Empty,
    Word,
    Commit,
}

// 16, of a journal that is not empty or too short for the edit, and 17, of bytes or a state that no edit has left.
#[derive(Clone, Copy, PartialEq, Eq)]
pub(crate) enum Refusal {
    NoRoom,
    Foreign,
}

impl From<Phase> for u32 {
    ghost from_gives = { λ p n. n ≡ phase_number p };

    fn from(phase: Phase) -> u32 {
        match phase {
            Phase::Writing => 0,
            Phase::Committing => 1,
            Phase::Applying => 2,
            Phase::Clearing => 3,
            Phase::End => 4,
        }
    }
}

impl TryFrom<u32> for Phase {
    type Error = Refusal;

    ghost try_from_gives = { λ n r. MatchResult r (λ p. n ≡ phase_number p) (λ e. (e ≡ Foreign) × (4 < n)) };

    fn try_from(number: u32) -> Result<Phase, Refusal> {
        match number {
            0 => Ok(Phase::Writing),
            1 => Ok(Phase::Committing),
            2 => Ok(Phase::Applying),
            3 => Ok(Phase::Clearing),
            4 => Ok(Phase::End),
            _ => Err(Refusal::Foreign),
        }
    }
}

impl From<Kind> for u8 {
    ghost from_gives = { λ k n. n ≡ kind_number k };

    fn from(kind: Kind) -> u8 {
        match kind {
            Kind::Empty => 0,
            Kind::Word => 1,
            Kind::Commit => 2,
        }
    }
}

impl TryFrom<u8> for Kind {
    type Error = Refusal;

    ghost try_from_gives = { λ n r. MatchResult r (λ k. n ≡ kind_number k) (λ e. (e ≡ Foreign) × (2 < n)) };

    fn try_from(byte: u8) -> Result<Kind, Refusal> {
        match byte {
            0 => Ok(Kind::Empty),
            1 => Ok(Kind::Word),
            2 => Ok(Kind::Commit),
            _ => Err(Refusal::Foreign),
        }
    }
}

// Neither refusal has a value or a place.
impl From<Refusal> for DoneAnswer {
    ghost from_gives = { λ r d. d ≡ refusal_answer (refusal_number r) };

    fn from(refusal: Refusal) -> DoneAnswer {
        DoneAnswer {
            number: match refusal {
                Refusal::NoRoom => 16,
                Refusal::Foreign => 17,
            },
            value: 0,
            at: 0,
        }
    }
}
