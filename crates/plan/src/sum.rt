// The checksum byte that the area will have, from the old and the new named bytes. The list is not reckoned anew.
ghost use Rattle.std.specs.Prelude.{◌≡◌, ◌+◌, ◌-◌, ◌≤◌, ◌<◌, ◌^◌, min, length};
ghost use Rattle.wire.specs.Bytes.{xor};
ghost use Rattle.laws.proofs.Patch.{patch_of};
ghost use Rattle.plan.specs.Plan.{void_header, header_span, stretch_length, stretch_of, with_checksum, total_patch, WellFormed};

use crate::Plan;
use rules::Header;
use rules::list::List;
use wire::Number;

// The exclusive or of the header of a void that takes n bytes, if there is one.
fn xor_void(n: usize) -> u8
    requires { n < 2 ^ 32 }
    ensures { result ≡ xor (void_header n) }
{
    if n < 8 {
        return 0;
    }
    let size = n - 8;
    crate::entry_word(0, size as u32).fold()
}

// The exclusive or of the bytes that the plan will write in its stretch.
fn xor_stretch(p: Plan, data: &[u8]) -> u8
    requires { (p.padding < 2 ^ 32) × (p.behind < 2 ^ 32) × (p.tag_id < 2 ^ 24) }
    ensures { result ≡ xor (stretch_of p «data».now) }
{
    xor_void(p.padding)
        ^ (crate::entry_word(p.tag_id, p.data_size).fold() ^ (wire::xor(data) ^ xor_void(p.behind)))
}

// The bytes of the header of a void that takes n bytes, if there is one.
pub fn header_span(n: usize) -> usize
    ensures { result ≡ header_span n }
{
    if n < 8 {
        return 0;
    }
    8
}

// How many bytes of the stretch were used bytes before.
fn old_length(p: Plan, n: usize, used: usize) -> usize
    requires { (p.at ≤ used) × (p.padding + 8 + n + p.zeros < 2 ^ 63) }
    ensures { result ≡ min (stretch_length p n) (used - p.at) }
{
    let len = p.padding + 8 + n + p.zeros + header_span(p.behind);
    let left = used - p.at;
    if len < left {
        return len;
    }
    left
}

// The checksum byte with has_checksum: the old one, and the exclusive or of the old and the new named bytes.
fn patch(p: Plan, list: List, data: &[u8]) -> u8
    requires { WellFormed list.header (length list.bytes.now) (length «data».now) p }
    ensures { result ≡ patch_of list.entry.bytes.now p.alignment p.used_size p.at (stretch_of p «data».now) }
{
    let h = list.header;
    let at = p.at;
    let old = old_length(p, data.len(), h.used_size as usize);
    h.checksum
        ^ h.alignment
        ^ p.alignment
        ^ h.used_size.fold()
        ^ p.used_size.fold()
        ^ wire::xor(&list.bytes[at..at + old])
        ^ xor_stretch(p, data)
}

// The plan with the checksum byte that the area will have; without has_checksum it is 0.
pub fn with_checksum(p: Plan, list: List, data: &[u8]) -> Plan
    requires { WellFormed list.header (length list.bytes.now) (length «data».now) p }
    ensures { result ≡ with_checksum list.entry.bytes.now «data».now p }
{
    let mut sealed = p;
    if list.header.has_checksum() {
        sealed.checksum = patch(p, list, data);
        return sealed;
    }
    sealed.checksum = 0;
    sealed
}

// The checksum byte of a list whose total_size becomes total; without has_checksum it is 0.
pub fn total_patch(h: Header, total: u32) -> u8
    ensures { result ≡ total_patch h total }
{
    if h.has_checksum() {
        return h.checksum ^ h.total_size.fold() ^ total.fold();
    }
    0
}
