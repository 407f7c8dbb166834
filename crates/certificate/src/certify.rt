// The certificate of a list: refusal 18 after those of the check, then what its data says.
ghost use Rattle.std.specs.Prelude.{◌≡◌, ◌+◌, ◌≤◌, [], ◌∷◌, length};
ghost use Rattle.rules.specs.Entries.{data_offset};
ghost use Rattle.rules.specs.Tags.{certificate_tag};
ghost use Rattle.rules.specs.Certificate.{certified_in, certify as certify_rule};

use crate::contents;
use rules::Entry;
use rules::certificate::{Certificate, Uncertified, Verdict};
use walk::check;
use walk::format::Format;
use walk::wanted::Wanted;

// Occurrence n of the certificate's tag, with any number of bytes of data.
fn wanted(n: u64) -> Wanted
    ensures { result ≡ record { tag = certificate_tag; least = 0; n = n } }
{
    Wanted {
        tag: Certificate::TAG,
        least: 0,
        n,
    }
}

// What the one entry with the certificate's tag comes to: 18 for its length, then what its data says. A struct of serial and test would be
// no plainer: it would be made in certify alone, which C callers hand the two numbers, and taken apart in refuses_identity.
fn certify_entry(area: &[u8], e: Entry, serial: u64, test: u64) -> Result<Verdict, Uncertified>
    requires { data_offset e + e.data_size ≤ length area.now }
    ensures { result ≡ certified_in area.now serial test (e ∷ []) }
{
    if e.data_size as usize != Certificate::SIZE {
        return Err(Uncertified::NotOne);
    }
    let from = e.at + e.hdr_size as usize;
    let to = from + Certificate::SIZE;
    contents::certified(&area[from..to], serial, test)
}

// The one certificate of a list, if it is the one asked for: its reading, and whether it passes. There is exactly one where there is an
// occurrence 0 of its tag and no occurrence 1.
pub fn certify(area: &[u8], base: u64, serial: u64, test: u64) -> Result<Verdict, Uncertified>
    ensures { result ≡ certify_rule area.now base serial test }
{
    let survey = check::survey(Format::Current, false, area, base, wanted(0))?;
    let e = survey.found.ok_or(Uncertified::NotOne)?;
    if check::seek(area, survey.header, wanted(1)).is_some() {
        return Err(Uncertified::NotOne);
    }
    certify_entry(area, e, serial, test)
}
