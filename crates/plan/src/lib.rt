// What an edit will write, decided before any byte changes, and the writing of it. Knows nothing of how an edit decides.
#![tactic(auto)]

pub mod sum;
pub mod write;

ghost use Rattle.std.specs.Prelude.{◌≡◌, ◌<◌, ◌^◌};
ghost use Rattle.plan.specs.Plan.{entry_word};

// A stretch of entries and the header fields that go with it: final numbers, 0 for what is not there, as a C caller's state carries them. A
// void is an entry with tag 0, no data and zeros behind its header.
#[derive(Clone, Copy)]
pub struct Plan {
    // What the call answers.
    pub value: u32,
    pub checksum: u8,
    pub alignment: u8,
    pub used_size: u32,
    // Where the stretch starts: a multiple of 8.
    pub at: usize,
    // The bytes of the padding void in front, its header included; 0 where there is none.
    pub padding: usize,
    pub tag_id: u32,
    pub data_size: u32,
    // The zeros behind the data.
    pub zeros: usize,
    // The bytes of the void behind, its header included; 0 where there is none.
    pub behind: usize,
}

// The eight bytes of an entry header as one number. No type for a tag below 2^24: a C caller's state carries any number as its plan's tag.
pub(crate) fn entry_word(tag: u32, size: u32) -> u64
    requires { tag < 2 ^ 24 }
    ensures { result ≡ entry_word tag size }
{
    tag as u64 + 0x800_0000 + 0x1_0000_0000 * (size as u64)
}
