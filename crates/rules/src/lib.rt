// The declared types of a transfer list and of the answers about it. The written rules are in specs/; nothing here does the work.
#![tactic(auto)]

pub mod certificate;
pub mod list;

ghost use Rattle.std.specs.Prelude.{◌≡◌};
ghost use Rattle.rules.specs.Header.{fresh_header, has_checksum};
ghost use Rattle.rules.specs.Refusals.{number_of, place_of};
ghost use Rattle.rules.specs.Check.{check_answer};
ghost use Rattle.rules.specs.Find.{find_answer};
ghost use Rattle.rules.specs.Outcome.{done_answer};

// The longest area and the longest target, in bytes.
pub const MAX_LENGTH: usize = 16777216;

// The largest alignment, as a power of two's exponent.
pub const MAX_ALIGNMENT: u8 = 21;

// No area reaches above this address.
pub const MAX_ADDRESS: u64 = 0x1_0000_0000_0000;

// The header of a list, field by field.
#[derive(Clone, Copy)]
pub struct Header {
    pub signature: u32,
    pub checksum: u8,
    pub version: u8,
    pub hdr_size: u8,
    pub alignment: u8,
    pub used_size: u32,
    pub total_size: u32,
    pub flags: u32,
    pub reserved: u32,
}

impl Header {
    pub const SIGNATURE: u32 = 0x4a0fb10b;
    // The header's own numbers.
    pub const SIZE: u8 = 24;

    pub const VERSION: u8 = 1;

    pub const ALIGNMENT: u8 = 3;

    pub const SMALLEST_ENTRY: u8 = 8;

    // The header of a new list without entries, its checksum still 0.
    pub fn fresh(total_size: u32, has_checksum: bool) -> Header
        ensures { result ≡ fresh_header total_size has_checksum }
    {
        Header {
            signature: Header::SIGNATURE,
            checksum: 0,
            version: Header::VERSION,
            hdr_size: Header::SIZE,
            alignment: Header::ALIGNMENT,
            used_size: Header::SIZE as u32,
            total_size,
            flags: has_checksum.into(),
            reserved: 0,
        }
    }

    // Flag bit 0: the list has a checksum.
    pub fn has_checksum(self) -> bool
        ensures { result ≡ has_checksum self }
    {
        self.flags % 2 == 1
    }
}

// An entry as the walk meets it: where it starts, and its header's fields.
#[derive(Clone, Copy)]
pub struct Entry {
    pub at: usize,
    pub tag_id: u32,
    pub hdr_size: u8,
    pub data_size: u32,
}

// A row of the tag table: a tag, with the least and the greatest length of its data; where there is no greatest, any longer one is allowed.
#[derive(Clone, Copy)]
pub struct TagRow {
    pub tag: u32,
    pub least: usize,
    pub most: Option<usize>,
}

// Why a call is turned away.
#[derive(Clone, Copy, Debug, PartialEq, Eq)]
pub enum Refusal {
    Area,
    Short,
    Signature,
    Version,
    Readonly,
    Sizes,
    Checksum,
    // With the place of the first entry that breaks a rule.
    Entry(u32),
    Tag,
    Shape,
    Align,
    Target,
    None,
    Room,
}

impl Refusal {
    // The place in an answer: that of the first entry that breaks a rule; of every other refusal 0.
    pub(crate) fn place(self) -> u32
        ensures { result ≡ place_of self }
    {
        match self {
            Refusal::Entry(at) => at,
            _ => 0,
        }
    }
}

// The refusal's number in the table.
impl From<Refusal> for u32 {
    ghost from_gives = { λ r n. n ≡ number_of r };

    fn from(r: Refusal) -> u32 {
        match r {
            Refusal::Area => 1,
            Refusal::Short => 2,
            Refusal::Signature => 3,
            Refusal::Version => 4,
            Refusal::Readonly => 5,
            Refusal::Sizes => 6,
            Refusal::Checksum => 7,
            Refusal::Entry(_) => 8,
            Refusal::Tag => 9,
            Refusal::Shape => 10,
            Refusal::Align => 11,
            Refusal::Target => 12,
            Refusal::None => 13,
            Refusal::Room => 14,
        }
    }
}

// What an accepted check answers.
#[derive(Clone, Copy)]
pub struct Facts {
    pub version: u32,
    pub used: u32,
    pub total: u32,
    pub alignment: u32,
    pub live: u32,
    pub voids: u32,
}

// What an accepted find answers: the data's offset and size.
#[derive(Clone, Copy)]
pub struct Extent {
    pub offset: u32,
    pub size: u32,
}

// The answers in numbers, structs of C callers: the refusal's number, 0 where accepted; the values, all 0 where refused; and the place, 0 in all but refusal 8.
// Create, the edits and the conversion answer one value: the total, an offset, the shift or the new used size.
#[repr(C)]
#[derive(Clone, Copy)]
pub struct CheckAnswer {
    pub number: u32,
    pub version: u32,
    pub used: u32,
    pub total: u32,
    pub alignment: u32,
    pub live: u32,
    pub voids: u32,
    pub at: u32,
}

#[repr(C)]
#[derive(Clone, Copy)]
pub struct FindAnswer {
    pub number: u32,
    pub offset: u32,
    pub size: u32,
    pub at: u32,
}

#[repr(C)]
#[derive(Clone, Copy)]
pub struct DoneAnswer {
    pub number: u32,
    pub value: u32,
    pub at: u32,
}

impl From<Result<Facts, Refusal>> for CheckAnswer {
    ghost from_gives = { λ checked answer. answer ≡ check_answer checked };

    fn from(checked: Result<Facts, Refusal>) -> CheckAnswer {
        match checked {
            Ok(f) => CheckAnswer {
                number: 0,
                version: f.version,
                used: f.used,
                total: f.total,
                alignment: f.alignment,
                live: f.live,
                voids: f.voids,
                at: 0,
            },
            Err(r) => CheckAnswer {
                number: r.into(),
                version: 0,
                used: 0,
                total: 0,
                alignment: 0,
                live: 0,
                voids: 0,
                at: r.place(),
            },
        }
    }
}

impl From<Result<Extent, Refusal>> for FindAnswer {
    ghost from_gives = { λ found answer. answer ≡ find_answer found };

    fn from(found: Result<Extent, Refusal>) -> FindAnswer {
        match found {
            Ok(x) => FindAnswer {
                number: 0,
                offset: x.offset,
                size: x.size,
                at: 0,
            },
            Err(r) => FindAnswer {
                number: r.into(),
                offset: 0,
                size: 0,
                at: r.place(),
            },
        }
    }
}

impl From<Result<u32, Refusal>> for DoneAnswer {
    ghost from_gives = { λ done answer. answer ≡ done_answer done };

    fn from(done: Result<u32, Refusal>) -> DoneAnswer {
        match done {
            Ok(value) => DoneAnswer {
                number: 0,
                value,
                at: 0,
            },
            Err(r) => DoneAnswer {
                number: r.into(),
                value: 0,
                at: r.place(),
            },
        }
    }
}
