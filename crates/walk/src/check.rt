// The check, and the survey of a list: its check that tells the header and a wanted entry too, for find, the edits, the conversion and the
// certificate, which seeks a second entry.
ghost use Rattle.std.specs.Prelude.{◌≡◌, ◌≤◌, false, length};
ghost use Rattle.rules.specs.Header.{header_of};
ghost use Rattle.rules.specs.Entries.{first_entry, entries_of};
ghost use Rattle.rules.specs.Checksum.{checksum_holds};
ghost use Rattle.rules.specs.Check.{checks_of};
ghost use Rattle.rules.specs.Edition09.{edition09, sum_holds};
ghost use Rattle.walk.specs.Format.{edition_of};
ghost use Rattle.walk.specs.Wanted.{wanted_of};
ghost use Rattle.walk.specs.Survey.{survey_in};

use crate::format::Format;
use crate::wanted::Wanted;
use crate::{cursor, header};
use rules::list::List;
use rules::{Entry, Facts, Header, Refusal};

// What the survey of an accepted list answers: what the check answers, the header, and the wanted entry, if there is one.
#[derive(Clone, Copy)]
pub struct Surveyed {
    pub facts: Facts,
    pub header: Header,
    pub found: Option<Entry>,
}

// A current list's checksum rule: with has_checksum the exclusive or of all used bytes is 0, without it the checksum byte is 0.
fn checksum_holds(list: List) -> bool
    ensures { result ≡ checksum_holds list.entry.bytes.now }
{
    let h = list.header;
    if h.has_checksum() {
        return wire::xor(&list.bytes[..h.used_size as usize]) == 0;
    }
    h.checksum == 0
}

// Edition 0.9's checksum rule, as source 000's validation step reckons it: the sum of the used bytes minus the checksum byte is the
// checksum byte. The header's size is asked for here and is no field of List: the checksum's patch (`with_checksum`) never asked for it.
fn sum_holds(list: List) -> bool
    requires { edition09.header_size ≤ list.header.used_size }
    ensures { result ≡ sum_holds list.entry.bytes.now }
{
    let checksum = list.header.checksum;
    let all = wire::sum(&list.bytes[..list.header.used_size as usize]);
    checksum == all.wrapping_sub(checksum)
}

// The edition's checksum rule. A match and no trait: with a type for each edition all that calls the survey would be generic for this line.
fn summed(format: Format, list: List) -> bool
    requires { edition09.header_size ≤ list.header.used_size }
    ensures { result ≡ (edition_of format).summed list.entry.bytes.now }
{
    match format {
        Format::Current => checksum_holds(list),
        Format::Edition09 => sum_holds(list),
    }
}

// Checks 1 to 8 of a list of an edition in the order of their numbers, 5 only for an edit or a conversion; with the header, and
// the wanted entry. Area and base are two parameters here and above, as they are two of each C call; but `usable` and places nothing reads a base.
pub fn survey(
    format: Format,
    editing: bool,
    area: &[u8],
    base: u64,
    w: Wanted,
) -> Result<Surveyed, Refusal>
    ensures { result ≡ survey_in (edition_of format) editing area.now base w }
{
    let header = header::check_header(format, editing, area, base)?;
    let list = List {
        bytes: area,
        header,
    };
    if !summed(format, list) {
        return Err(Refusal::Checksum);
    }
    let counts = cursor::walk(list, w)?;
    Ok(Surveyed {
        facts: Facts {
            version: header.version as u32,
            used: header.used_size,
            total: header.total_size,
            alignment: header.alignment as u32,
            live: counts.live,
            voids: counts.voids,
        },
        header,
        found: counts.found,
    })
}

// The check of the area's bytes at a stated base, as a list of an edition.
pub fn check(format: Format, area: &[u8], base: u64) -> Result<Facts, Refusal>
    ensures { result ≡ checks_of (edition_of format) false area.now base }
{
    Ok(survey(format, false, area, base, Wanted::nothing())?.facts)
}

// Another wanted entry of a list that was surveyed, whose header is h. No List is asked for: the one caller would make it for this call alone.
pub fn seek(a: &[u8], h: Header, w: Wanted) -> Option<Entry>
    requires { (h ≡ header_of a.now) × (first_entry h ≤ h.used_size) × (h.used_size ≤ length a.now) }
    ensures { result ≡ wanted_of w (entries_of a.now) }
{
    let list = List {
        bytes: a,
        header: h,
    };
    cursor::walk(list, w).ok()?.found
}
