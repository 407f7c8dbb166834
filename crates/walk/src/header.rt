// The header's fields, and refusals 1 to 6, which need no more than the header.
ghost use Rattle.std.specs.Prelude.{◌≡◌, ◌≤◌, length};
ghost use Rattle.rules.specs.Area.{usable as usable_rule};
ghost use Rattle.rules.specs.Header.{header_of};
ghost use Rattle.rules.specs.Entries.{first_entry};
ghost use Rattle.rules.specs.Refusals.{refuses_sizes, refuses_readonly};
ghost use Rattle.rules.specs.Check.{fields_refusal};
ghost use Rattle.rules.specs.Edition09.{edition09};
ghost use Rattle.walk.specs.Format.{edition_of};
ghost use Rattle.walk.specs.Headed.{headed, headed_of};

use crate::format::Format;
use rules::{Header, Refusal};
use wire::Number;

// The header's fields, as the table has them. Edition 0.9's header ends before the flags: what is read there is not its own, and counts
// 0 behind the area's end.
pub(crate) fn read_header(a: &[u8]) -> Header
    requires { edition09.header_size ≤ length a.now }
    ensures { result ≡ header_of a.now }
{
    Header {
        signature: u32::read(a, 0),
        checksum: a[4],
        version: a[5],
        hdr_size: a[6],
        alignment: a[7],
        used_size: u32::read(a, 8),
        total_size: u32::read(a, 12),
        flags: wire::read4_or_zeros(a, 16),
        reserved: wire::read4_or_zeros(a, 20),
    }
}

// The place of the first entry, rounded up as the rules write it.
pub(crate) fn first_entry(h: Header) -> usize
    ensures { result ≡ first_entry h }
{
    (h.hdr_size as usize + 7) / 8 * 8
}

// An area is usable. Each sum is made only where it cannot wrap.
pub fn usable(base: u64, len: usize) -> bool
    ensures { result ≡ usable_rule base len }
{
    if rules::MAX_LENGTH < len {
        return false;
    }
    if rules::MAX_ADDRESS < base {
        return false;
    }
    (base % 8 == 0) & (base + len as u64 <= rules::MAX_ADDRESS)
}

// Refusal 5: only an edit or a conversion is refused for a version over 1.
fn refuses_readonly(editing: bool, h: Header) -> bool
    ensures { result ≡ refuses_readonly editing h }
{
    editing & (Header::VERSION < h.version)
}

// Refusal 6.
fn refuses_sizes(format: Format, h: Header, len: usize) -> bool
    ensures { result ≡ refuses_sizes (edition_of format) h len }
{
    let own = format.header_size();
    let used = h.used_size as usize;
    let total = h.total_size as usize;
    ((h.version == Header::VERSION) & (h.hdr_size != own)
        | (h.version != Header::VERSION) & (h.hdr_size < own))
        | ((h.alignment < Header::ALIGNMENT) | (rules::MAX_ALIGNMENT < h.alignment))
        | (used % 8 != 0)
        | (total % 8 != 0)
        | (used < first_entry(h))
        | (total < used)
        | (len < total)
}

// Refusals 3 to 6 in the order of their numbers, of a header in an area of len bytes.
pub(crate) fn check_fields(
    format: Format,
    editing: bool,
    len: usize,
    h: Header,
) -> Result<Header, Refusal>
    ensures { result ≡ headed h (fields_refusal (edition_of format) editing len h) }
{
    if h.signature != format.signature() {
        return Err(Refusal::Signature);
    }
    if h.version == 0 {
        return Err(Refusal::Version);
    }
    if refuses_readonly(editing, h) {
        return Err(Refusal::Readonly);
    }
    if refuses_sizes(format, h, len) {
        return Err(Refusal::Sizes);
    }
    Ok(h)
}

// Refusals 1 to 6 in the order of their numbers, or the header.
pub(crate) fn check_header(
    format: Format,
    editing: bool,
    area: &[u8],
    base: u64,
) -> Result<Header, Refusal>
    ensures { result ≡ headed_of (edition_of format) editing area.now base }
{
    let len = area.len();
    if !usable(base, len) {
        return Err(Refusal::Area);
    }
    if len < format.header_size() as usize {
        return Err(Refusal::Short);
    }
    check_fields(format, editing, len, read_header(area))
}
