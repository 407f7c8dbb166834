// Create: a new list without entries. Its writing of a header serves the conversion too.
#![tactic(auto)]

ghost use Rattle.std.specs.Prelude.{◌≡◌, ◌≤◌, length};
ghost use Rattle.wire.specs.Bytes.{splice};
ghost use Rattle.rules.specs.Header.{header_size, header_bytes};
ghost use Rattle.rules.specs.Outcome.{answer, bytes_after};
ghost use Rattle.rules.specs.Create.{create as create_rule};

use rules::{Header, Refusal};
use walk::header;
use wire::Number;

// The header's bytes, field after field.
pub fn write_header(a: &mut [u8], h: Header)
    requires { header_size ≤ length a.old }
    ensures { a.new ≡ splice a.old 0 (header_bytes h) }
{
    h.signature.write(a, 0);
    a[4] = h.checksum;
    a[5] = h.version;
    a[6] = h.hdr_size;
    a[7] = h.alignment;
    h.used_size.write(a, 8);
    h.total_size.write(a, 12);
    h.flags.write(a, 16);
    h.reserved.write(a, 20);
}

// Writes a new list: the header, and zero in every further byte. Answers the total.
pub fn create(area: &mut [u8], base: u64, has_checksum: bool) -> Result<u32, Refusal>
    ensures value { result ≡ answer (create_rule area.old base has_checksum) }
    ensures area_after { area.new ≡ bytes_after area.old (create_rule area.old base has_checksum) }
{
    let len = area.len();
    if !header::usable(base, len) {
        return Err(Refusal::Area);
    }
    let size = Header::SIZE as usize;
    if len <= size {
        return Err(Refusal::Short);
    }
    let total = (len / 8 * 8) as u32;
    write_header(area, Header::fresh(total, has_checksum));
    wire::zero_part(area, size, len - size);
    if has_checksum {
        area[4] = wire::xor(&area[..size]);
    }
    Ok(total)
}
