// The declared types of the test certificate and of the answer about it (document 02, request 5).
ghost use Rattle.std.specs.Prelude.{◌≡◌};
ghost use Rattle.rules.specs.declared.certificate.Uncertified.TheVariants as uncertified;
ghost use Rattle.rules.specs.Certificate.{certified_answer, refused_answer};

use crate::Refusal;

// The fields of a certificate. The four floats are patterns of 64 bits here, since a pattern may be no number.
#[derive(Clone, Copy)]
pub struct Certificate {
    pub serial: u64,
    pub test: u64,
    pub kind: u32,
    pub counts: u32,
    pub gain: u64,
    pub offset: u64,
    pub low: u64,
    pub high: u64,
}

impl Certificate {
    pub const TAG: u32 = 0xfff010;

    pub const SIZE: usize = 56;

    pub const MAX_COUNTS: u32 = 0x100_0000;
}

// The gauge's gain and offset.
#[derive(Clone, Copy)]
pub struct Calibration {
    pub gain: f64,
    pub offset: f64,
}

// The gate that a reading is to pass, with its limits.
#[derive(Clone, Copy)]
pub enum Gate {
    Band { low: f64, high: f64 },
    Ceiling { high: f64 },
    Floor { low: f64 },
}

impl Gate {
    // The kinds' numbers as a certificate's bytes have them; `Kind` of the crate certificate is made of them.
    pub const BAND: u32 = 1;

    pub const CEILING: u32 = 2;

    pub const FLOOR: u32 = 3;
}

// What an accepted certificate comes to: its reading, and whether that passes.
#[derive(Clone, Copy)]
pub struct Verdict {
    pub reading: f64,
    pub pass: bool,
}

// Why there is no reading: the refusal of the list, or the certificate's own refusals, 18 to 20.
#[derive(Clone, Copy, Debug, PartialEq, Eq)]
pub enum Uncertified {
    Refused(Refusal),
    // 18 CERTIFICATE: not exactly one entry of the list has the tag, or that one is not 56 bytes long.
    NotOne,
    // 19 IDENTITY: its serial or test is not the one asked for.
    Another,
    // 20 CONTENTS: its contents break a rule.
    Unsound,
}

impl From<Refusal> for Uncertified {
    ghost from_gives = { λ r e. e ≡ uncertified.Refused r };

    fn from(r: Refusal) -> Uncertified {
        Uncertified::Refused(r)
    }
}

// The answer in numbers, a struct of C callers: the refusal's number, 0 where not refused; the pass, 1 or 0; the reading. Where refused both
// are 0. The place is 0 in all but refusal 8.
#[repr(C)]
#[derive(Clone, Copy)]
pub struct CertifiedAnswer {
    pub number: u32,
    pub pass: u32,
    pub reading: f64,
    pub at: u32,
}

// A refusal's answer.
fn refused(number: u32, at: u32) -> CertifiedAnswer
    ensures { result ≡ refused_answer number at }
{
    CertifiedAnswer {
        number,
        pass: 0,
        reading: 0.0,
        at,
    }
}

impl From<Result<Verdict, Uncertified>> for CertifiedAnswer {
    ghost from_gives = { λ certified answer. answer ≡ certified_answer certified };

    fn from(certified: Result<Verdict, Uncertified>) -> CertifiedAnswer {
        match certified {
            Ok(v) => CertifiedAnswer {
                number: 0,
                pass: v.pass.into(),
                reading: v.reading,
                at: 0,
            },
            Err(Uncertified::Refused(r)) => refused(r.into(), r.place()),
            Err(Uncertified::NotOne) => refused(18, 0),
            Err(Uncertified::Another) => refused(19, 0),
            Err(Uncertified::Unsound) => refused(20, 0),
        }
    }
}
