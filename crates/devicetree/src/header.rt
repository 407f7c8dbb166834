// The header's fields and rules, and the reservation block.
ghost use Rattle.std.specs.Prelude.{◌≡◌, ◌≤◌, true, length};
ghost use Rattle.devicetree.specs.Header.{
  header_of,
  header_size,
  identified as identified_rule,
  ordered as ordered_rule,
  aligned as aligned_rule,
  headed as headed_rule,
  Reservation,
};
ghost use Rattle.devicetree.specs.Tree.{structure_of, strings_of};
ghost use Rattle.devicetree.specs.Decided.{Answers};

use crate::blocks::Blocks;
use crate::bytes;

// The header's fields that are judged.
#[derive(Clone, Copy)]
pub struct Header {
    pub magic: u32,
    pub totalsize: u32,
    pub off_dt_struct: u32,
    pub off_dt_strings: u32,
    pub off_mem_rsvmap: u32,
    pub version: u32,
    pub last_comp_version: u32,
    pub size_dt_strings: u32,
    pub size_dt_struct: u32,
}

impl Header {
    pub const SIZE: usize = 40;

    pub const MAGIC: u32 = 0xd00d_feed;

    pub const VERSION: u32 = 17;

    pub const LAST_COMP_VERSION: u32 = 16;

    // The header that d starts with.
    pub fn read(d: &[u8]) -> Header
        requires { header_size ≤ length d.now }
        ensures { result ≡ header_of d.now }
    {
        Header {
            magic: bytes::cell(d, 0),
            totalsize: bytes::cell(d, 4),
            off_dt_struct: bytes::cell(d, 8),
            off_dt_strings: bytes::cell(d, 12),
            off_mem_rsvmap: bytes::cell(d, 16),
            version: bytes::cell(d, 20),
            last_comp_version: bytes::cell(d, 24),
            size_dt_strings: bytes::cell(d, 32),
            size_dt_struct: bytes::cell(d, 36),
        }
    }

    // The magic number and both version numbers.
    fn identified(self) -> bool
        ensures { result ≡ identified_rule self }
    {
        (self.magic == Header::MAGIC)
            & (self.version == Header::VERSION)
            & (self.last_comp_version == Header::LAST_COMP_VERSION)
    }

    // The blocks' order, within totalsize, and that within the data's length.
    fn ordered(self, len: usize) -> bool
        ensures { result ≡ ordered_rule self len }
    {
        let structure = self.off_dt_struct as usize;
        let strings = self.off_dt_strings as usize;
        let totalsize = self.totalsize as usize;
        (Header::SIZE <= self.off_mem_rsvmap as usize)
            & (structure + self.size_dt_struct as usize <= strings)
            & (strings + self.size_dt_strings as usize <= totalsize)
            & (totalsize <= len)
    }

    // The multiples.
    fn aligned(self) -> bool
        ensures { result ≡ aligned_rule self }
    {
        (self.off_mem_rsvmap % 8 == 0)
            & (self.off_dt_struct % 4 == 0)
            & (self.size_dt_struct % 4 == 0)
    }

    // What the header has to keep, in data of so many bytes.
    pub(crate) fn headed(self, len: usize) -> bool
        ensures { result ≡ headed_rule self len }
    {
        self.identified() & self.ordered(len) & self.aligned()
    }

    // The data up to the structure block's end, and the strings block.
    pub fn blocks(self, d: &[u8]) -> Blocks<'_>
        requires { headed_rule self (length d.now) ≡ true }
        ensures structure { result.structure.now ≡ structure_of d.now self }
        ensures strings { result.strings.now ≡ strings_of d.now self }
    {
        let end = self.off_dt_struct as usize + self.size_dt_struct as usize;
        let from = self.off_dt_strings as usize;
        let to = from + self.size_dt_strings as usize;
        Blocks {
            structure: &d[..end],
            strings: &d[from..to],
        }
    }
}

// A reservation block's pair takes so many bytes.
const PAIR_SIZE: usize = 16;

// The reservation block from a place on ends with a zero pair at or before end.
pub(crate) fn reservation(d: &[u8], at: usize, end: usize) -> bool
    requires { end ≤ length d.now }
    ensures { Answers (Reservation d.now end at) result }
{
    let Some(pairs) = d.get(at..end) else {
        return false;
    };
    for pair in pairs.chunks_exact(PAIR_SIZE) {
        if bytes::zeros(pair, 0, pair.len()) {
            return true;
        }
    }
    false
}
