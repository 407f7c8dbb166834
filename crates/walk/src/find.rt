// Find, in both forms.
ghost use Rattle.std.specs.Prelude.{◌≡◌, ◌+◌};
ghost use Rattle.rules.specs.Find.{find_of, find_data_of, part_offset};
ghost use Rattle.walk.specs.Format.{edition_of};

use crate::check;
use crate::format::Format;
use crate::wanted::Wanted;
use rules::{Extent, Refusal};

// The offset and size of the data of occurrence n of a tag, in a list of an edition.
pub fn find(format: Format, area: &[u8], base: u64, tag: u32, n: u64) -> Result<Extent, Refusal>
    ensures { result ≡ find_of (edition_of format) area.now base tag n }
{
    let survey = check::survey(format, false, area, base, Wanted { tag, least: 0, n })?;
    if tags::refuses_tag(tag) {
        return Err(Refusal::Tag);
    }
    let e = survey.found.ok_or(Refusal::None)?;
    Ok(Extent {
        offset: (e.at + e.hdr_size as usize) as u32,
        size: e.data_size,
    })
}

// The data itself, as a part of the caller's area; the empty part where find refuses.
pub fn find_data(format: Format, area: &[u8], base: u64, tag: u32, n: u64) -> &[u8]
    ensures value { result.now ≡ find_data_of (edition_of format) area.now base tag n }
    ensures same_memory { result.ref_ptr.0 ≡ area.entry.ref_ptr.0 }
    ensures at_offset { result.ref_ptr.1 ≡ area.entry.ref_ptr.1 + part_offset (find_of (edition_of format) area.now base tag n) }
{
    let Ok(found) = find(format, area, base, tag, n) else {
        return &area[..0];
    };
    let from = found.offset as usize;
    let to = from + found.size as usize;
    &area[from..to]
}
