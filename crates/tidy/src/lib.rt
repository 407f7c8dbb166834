// Tidy: each run of neighbouring voids becomes one void, its data zero, and those at the end are given back.
#![tactic(auto)]

ghost use Rattle.std.specs.Prelude.{◌≡◌, ◌≤◌, length};
ghost use Rattle.rules.specs.Header.{header_of, header_size};
ghost use Rattle.rules.specs.Entries.{entries_of};
ghost use Rattle.rules.specs.Checksum.{fresh_checksum};
ghost use Rattle.rules.specs.Outcome.{answer, bytes_after};
ghost use Rattle.rules.specs.Tidy.{tidied, write_voids, tidy_used};
ghost use Rattle.rules.specs.Edit.{run, to_tidy};
ghost use Rattle.laws.proofs.Row.{Row};

use plan::write;
use rules::{Header, Refusal};
use walk::format::Format;
use walk::wanted::Wanted;
use walk::{check, cursor};
use wire::Number;

// One walk over the entries. What lies, if anything, between the end of a live entry, or of the header, and the next live one is a run of
// voids, and becomes one void. Answers the end of the last live entry.
fn join_voids(a: &mut [u8], used: u32) -> u32
    requires { Row a.old header_size used (entries_of a.old) × (used ≤ length a.old) }
    ensures value { result ≡ tidy_used a.old }
    ensures a_after { a.new ≡ write_voids (tidied (entries_of a.old)) a.old }
{
    let mut end = Header::SIZE as usize;
    let mut at = end;
    // No range counts these places: each entry's size says where the next one starts. No iterator over them lends the bytes for writing.
    while at < used as usize {
        let e = cursor::entry_at(a, at);
        let next = at + cursor::entry_span(e.data_size);
        if e.tag_id != 0 {
            write::write_void(a, end, at - end);
            end = next;
        }
        at = next;
    }
    end as u32
}

// The checksum worked out afresh of a list with the flags of h: with has_checksum the exclusive or of the used bytes except byte 4.
fn fresh_checksum(a: &[u8], h: Header, used: usize) -> u8
    requires { (h.flags ≡ (header_of a.now).flags) × (used ≡ (header_of a.now).used_size) × (header_size ≤ used) × (used ≤ length a.now) }
    ensures { result ≡ fresh_checksum a.now }
{
    if h.has_checksum() {
        return wire::xor(&a[..used]) ^ a[4];
    }
    0
}

// Tidies the list: the runs, zero in the bytes that are given back, used_size and the checksum. Answers the new used size.
pub fn tidy(area: &mut [u8], base: u64) -> Result<u32, Refusal>
    ensures value { result ≡ answer (run to_tidy area.old base) }
    ensures area_after { area.new ≡ bytes_after area.old (run to_tidy area.old base) }
{
    let h = check::survey(Format::Current, true, area, base, Wanted::nothing())?.header;
    let used = join_voids(area, h.used_size);
    let end = used as usize;
    wire::zero_part(area, end, h.used_size as usize - end);
    used.write(area, 8);
    area[4] = fresh_checksum(area, h, end);
    Ok(used)
}
