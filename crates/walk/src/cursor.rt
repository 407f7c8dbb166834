// The walk carries its place with it from entry to entry: a cursor, whose step answers the entry with the advanced cursor.
ghost use Rattle.std.specs.Prelude.{◌≡◌, ◌+◌, ◌^◌, ◌<◌, ◌≤◌, length};
ghost use Rattle.rules.specs.Header.{entry_header_size};
ghost use Rattle.rules.specs.Entries.{entry_at, span as span_rule, first_entry, walk_of};
ghost use Rattle.rules.specs.Add.{entry_span};
ghost use Rattle.walk.specs.Cursor.{fitted, judged, step_at};
ghost use Rattle.walk.specs.Wanted.{told};

use crate::header;
use crate::wanted::{Memory, Wanted};
use rules::list::List;
use rules::{Entry, Header, Refusal};
use wire::Number;

// A place in the list, from which the walk goes on.
#[derive(Clone, Copy)]
pub(crate) struct Cursor {
    pub(crate) at: usize,
}

// The walk's numbers of live and void entries, and the wanted entry, if there is one.
#[derive(Clone, Copy)]
pub(crate) struct Counts {
    pub(crate) live: u32,
    pub(crate) voids: u32,
    pub(crate) found: Option<Entry>,
}

// The entry at a place. Its header's eight bytes are read as one number.
pub fn entry_at(a: &[u8], at: usize) -> Entry
    requires { at + entry_header_size ≤ length a.now }
    ensures { result ≡ entry_at a.now at }
{
    let w = u64::read(a, at);
    Entry {
        at,
        tag_id: (w % 0x100_0000) as u32,
        hdr_size: (w / 0x100_0000 % 256) as u8,
        data_size: (w / 0x1_0000_0000) as u32,
    }
}

// The bytes that an entry takes, rounded up as the rules write it. The sum is made in 64 bits, so that a huge data_size does not wrap.
fn span(e: Entry) -> usize
    ensures { result ≡ span_rule e }
{
    (e.hdr_size as usize + e.data_size as usize + 7) / 8 * 8
}

// The bytes that an entry with a header of eight bytes takes: by itself, since `judge` takes it first.
pub fn entry_span(data_size: u32) -> usize
    ensures { result ≡ entry_span data_size }
{
    (data_size as usize + 15) / 8 * 8
}

// The cursor behind an entry of n bytes whose header size breaks no rule, if it breaks no other.
fn fit(left: usize, n: usize, e: Entry) -> Option<Cursor>
    requires { e.at + left < 2 ^ 64 }
    ensures { result ≡ fitted left n e }
{
    // Two tests and no `|`: with it a check of many entries took 7 % longer.
    if left < n {
        return None;
    }
    if (e.tag_id == 0) & (e.data_size % 8 != 0) {
        return None;
    }
    Some(Cursor { at: e.at + n })
}

// The cursor behind an entry with left bytes from its place up to used_size, if it breaks no rule. A header of eight bytes is
// judged first: the next place then waits for the data's size alone.
pub(crate) fn judge(version: u8, left: usize, e: Entry) -> Option<Cursor>
    requires { e.at + left < 2 ^ 64 }
    ensures { result ≡ judged version left e }
{
    if e.hdr_size == Header::SMALLEST_ENTRY {
        return fit(left, entry_span(e.data_size), e);
    }
    if (version == Header::VERSION) | (e.hdr_size < Header::SMALLEST_ENTRY) {
        return None;
    }
    fit(left, span(e), e)
}

impl Cursor {
    // The entry at the cursor's place, and the cursor behind it; or refusal 8. No entry is read at used_size itself.
    pub(crate) fn step(self, list: List) -> Result<Option<(Entry, Cursor)>, Refusal>
        requires { self.at ≤ list.header.used_size }
        ensures { result ≡ step_at list.entry.header.version list.entry.bytes.now list.entry.header.used_size self.at }
    {
        let at = self.at;
        let used = list.header.used_size as usize;
        let broken = Refusal::Entry(at as u32);
        if at == used {
            return Ok(None);
        }
        let left = used - at;
        if left < Header::SMALLEST_ENTRY as usize {
            return Err(broken);
        }
        let e = entry_at(list.bytes, at);
        let next = judge(list.header.version, left, e).ok_or(broken)?;
        Ok(Some((e, next)))
    }
}

// The one walk over the entries, which counts them and remembers the wanted one; refusal 8 at the first that breaks a rule.
pub(crate) fn walk(list: List, w: Wanted) -> Result<Counts, Refusal>
    requires { first_entry list.header ≤ list.header.used_size }
    ensures { result ≡ told w (walk_of list.entry.header list.entry.bytes.now) }
{
    let mut c = Cursor {
        at: header::first_entry(list.header),
    };
    let mut live: u32 = 0;
    let mut voids: u32 = 0;
    let mut m = Memory::new(w);
    while let Some((e, next)) = c.step(list)? {
        c = next;
        m = m.with(w, e);
        if e.tag_id == 0 {
            voids += 1;
        } else {
            live += 1;
        }
    }
    Ok(Counts {
        live,
        voids,
        found: m.found,
    })
}
