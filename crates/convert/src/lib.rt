// Convert: a list of edition 0.9, into another area as a current list with checksums on.
#![tactic(auto)]

ghost use Rattle.std.specs.Prelude.{◌≡◌, ◌+◌, ◌≤◌, ◌<◌, ◌^◌, length};
ghost use Rattle.rules.specs.Outcome.{answer, bytes_after};
ghost use Rattle.rules.specs.Edition09.{edition09, growth, grown_header, converted_bytes, convert as convert_rule};

use rules::list::List;
use rules::{Header, Refusal};
use walk::check;
use walk::format::Format;
use walk::wanted::Wanted;

// The header that create writes, with the old alignment and a used size that counts the longer header, for so many bytes of room.
fn grown_header(h: Header, room: usize) -> Header
    requires { (h.used_size + growth < 2 ^ 32) × (room < 2 ^ 32) }
    ensures { result ≡ grown_header h room }
{
    Header {
        alignment: h.alignment,
        used_size: h.used_size + Format::GROWTH as u32,
        ..Header::fresh((room / 8 * 8) as u32, true)
    }
}

// The target's bytes: zeros, the new header with its checksum, the entries as they stand, zeros.
fn write_target(list: List, target: &mut [u8], shift: usize)
    requires { (edition09.header_size ≤ list.header.used_size)
        × (shift + (list.header.used_size + growth) ≤ length target.old) × (length target.old < 2 ^ 32) }
    ensures { target.new ≡ converted_bytes list.entry.bytes.now shift (length target.old) }
{
    let old_size = Format::SIZE_09 as usize;
    let size = Header::SIZE as usize;
    let entries = &list.bytes[old_size..list.header.used_size as usize];
    let mut header = [0u8; 24];
    create::write_header(&mut header, grown_header(list.header, target.len() - shift));
    header[4] = wire::xor(&header) ^ wire::xor(entries);
    destination::lay_out(target, shift + size, entries);
    wire::copy_part(target, shift, &header);
}

// Converts the list into the target. Answers the shift: where in the target the list starts.
pub fn convert(area: &[u8], base: u64, target: &mut [u8], target_base: u64) -> Result<u32, Refusal>
    ensures value { result ≡ answer (convert_rule area.now base target.old target_base) }
    ensures target_after { target.new ≡ bytes_after target.old (convert_rule area.now base target.old target_base) }
{
    let h = check::survey(Format::Edition09, true, area, base, Wanted::nothing())?.header;
    let list = List {
        bytes: area,
        header: h,
    };
    let growth = Format::GROWTH as usize;
    let needed = h.used_size as usize + growth;
    let shift = destination::find_place(
        h.alignment,
        base,
        target_base,
        target.len(),
        needed,
        growth,
    )?;
    write_target(list, target, shift);
    Ok(shift as u32)
}
