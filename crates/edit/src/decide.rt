// What each edit will do, reading only: refused, or a plan.
ghost use Rattle.std.specs.Prelude.{◌≡◌, [], ◌+◌, ◌≤◌, ◌<◌, ◌^◌, length, IsOk, MatchResult};
ghost use Rattle.wire.proofs.Range.{Bytes};
ghost use Rattle.rules.specs.Area.{align8 as align8_rule};
ghost use Rattle.rules.specs.Entries.{entries_of};
ghost use Rattle.rules.specs.Refusals.{refuses_align};
ghost use Rattle.rules.specs.Check.{admit};
ghost use Rattle.rules.specs.Add.{first_fit};
ghost use Rattle.rules.specs.Edit.{run, to_add, to_add_aligned, to_void};
ghost use Rattle.walk.specs.Wanted.{wanted_of};
ghost use Rattle.plan.specs.Plan.{void_span, Decides};
ghost use Rattle.edit.specs.Decide.{plan_in_void, plan_at_end, plan_void, padding_for, judged_add, end_outcome, add_place};
ghost use Rattle.edit.specs.Decide.{planned_at_end, planned_place, planned_for};

use plan::{Plan, sum};
use rules::list::List;
use rules::{Entry, Header, Refusal};
use walk::check;
use walk::format::Format;
use walk::wanted::Wanted;

// n rounded up to a multiple of 8.
fn align8(n: usize) -> usize
    requires { n < 2 ^ 63 }
    ensures { result ≡ align8_rule n }
{
    n.next_multiple_of(8)
}

// The entry in the place of the void e; what is left of the void follows as a void of its own.
fn in_void(h: Header, e: Entry, tag: u32, n: usize) -> Plan
    requires { (align8_rule n ≤ e.data_size) × (e.at < 2 ^ 31) }
    ensures { result ≡ plan_in_void h e tag n }
{
    Plan {
        value: (e.at + 8) as u32,
        checksum: 0,
        alignment: h.alignment,
        used_size: h.used_size,
        at: e.at,
        padding: 0,
        tag_id: tag,
        data_size: n as u32,
        zeros: align8(n) - n,
        behind: e.data_size as usize - align8(n),
    }
}

// The entry at used_size, behind a padding void of so many bytes.
fn at_end(h: Header, padding: usize, alignment: u8, tag: u32, n: usize) -> Plan
    requires { h.used_size + padding + 8 + align8_rule n < 2 ^ 32 }
    ensures { result ≡ plan_at_end h padding alignment tag n }
{
    let used = h.used_size as usize;
    Plan {
        value: (used + padding + 8) as u32,
        checksum: 0,
        alignment,
        used_size: (used + padding + 8 + align8(n)) as u32,
        at: used,
        padding,
        tag_id: tag,
        data_size: n as u32,
        zeros: align8(n) - n,
        behind: 0,
    }
}

// A void in the place of the entry e.
fn void_plan(h: Header, e: Entry) -> Plan
    requires { (e.at < 2 ^ 32) × (align8_rule e.data_size < 2 ^ 32) }
    ensures { result ≡ plan_void h e }
{
    Plan {
        value: e.at as u32,
        checksum: 0,
        alignment: h.alignment,
        used_size: h.used_size,
        at: e.at,
        padding: 0,
        tag_id: 0,
        data_size: align8(e.data_size as usize) as u32,
        zeros: align8(e.data_size as usize),
        behind: 0,
    }
}

// A list that is admitted to an edit, and its base.
#[derive(Clone, Copy)]
struct Admitted<'a> {
    list: List<'a>,
    base: u64,
    ghost admitted: { IsOk (admit list.bytes.now base) },
    ghost bytes: { Bytes list.bytes.now },
}

impl<'a> Admitted<'a> {
    // Checks 1 to 8; with the wanted entry, which their walk remembers.
    fn new(area: &'a [u8], base: u64, w: Wanted) -> Result<(Admitted<'a>, Option<Entry>), Refusal>
        ensures { MatchResult result
            (λ x. (x.0.list.bytes.now ≡ area.now) × (x.0.base ≡ base) × (x.1 ≡ wanted_of w (entries_of x.0.list.bytes.now)))
            (λ r. admit area.now base ≡ Err r) }
    {
        let survey = check::survey(Format::Current, true, area, base, w)?;
        let list = List {
            bytes: area,
            header: survey.header,
        };
        Ok((Admitted { list, base }, survey.found))
    }

    // The entry at used_size, or ROOM where the padding void and the entry exceed total_size - used_size.
    fn at_end(self, padding: usize, alignment: u8, tag: u32, data: &[u8]) -> Result<Plan, Refusal>
        requires { (padding ≡ void_span padding) × (padding < 2 ^ 31) × (tag < 2 ^ 24) }
        ensures decides { Decides self.entry.list.bytes.now «data».now
            (end_outcome self.entry.list.bytes.now padding alignment tag «data».now) result }
        ensures value { result ≡ planned_at_end self.entry.list.header self.entry.list.bytes.now padding alignment tag «data».now }
    {
        let h = self.list.header;
        let n = data.len();
        let room = h.total_size as usize - h.used_size as usize;
        if room < padding + 8 + align8(n) {
            return Err(Refusal::Room);
        }
        let p = at_end(h, padding, alignment, tag, n);
        Ok(sum::with_checksum(p, self.list, data))
    }

    // Where an add goes: in the first void that fits, if voids may be used and there is one, else at used_size.
    fn place(
        self,
        fit: Option<Entry>,
        tag: u32,
        data: &[u8],
        use_voids: bool,
    ) -> Result<Plan, Refusal>
        requires { (fit ≡ first_fit (length «data».now) (entries_of self.list.bytes.now)) × (tag < 2 ^ 24) }
        ensures decides { Decides self.entry.list.bytes.now «data».now
            (add_place self.entry.list.bytes.now tag «data».now use_voids) result }
        ensures value { result ≡ planned_place self.entry.list.bytes.now tag «data».now use_voids }
    {
        let h = self.list.header;
        match fit {
            Some(e) if use_voids => {
                let p = in_void(h, e, tag, data.len());
                Ok(sum::with_checksum(p, self.list, data))
            }
            _ => self.at_end(0, h.alignment, tag, data),
        }
    }

    // The bytes of the padding void that brings the data to a multiple of 2^exponent: 0 where none is needed.
    fn padding_for(self, exponent: u32) -> usize
        requires { exponent < 32 }
        ensures { result ≡ padding_for self.entry.base self.entry.list.header.used_size exponent }
    {
        let m = 1u64 << exponent;
        let p = (self.base + self.list.header.used_size as u64 + 8) % m;
        if p == 0 {
            return 0;
        }
        (m - p) as usize
    }
}

// Checks 9 and 10, of both adds.
fn judge_add(tag: u32, n: usize) -> Result<(), Refusal>
    ensures { result ≡ judged_add tag n }
{
    if tags::refuses_tag_add(tag) {
        return Err(Refusal::Tag);
    }
    if tags::refuses_shape(tag, n) {
        return Err(Refusal::Shape);
    }
    Ok(())
}

// Refusal 11.
fn refuses_align(exponent: u32) -> bool
    ensures { result ≡ refuses_align exponent }
{
    !(Header::ALIGNMENT.into()..=rules::MAX_ALIGNMENT.into()).contains(&exponent)
}

// Add: checks 1 to 8, then 9, 10 and 14. The walk of the check remembers the first void that fits.
pub fn decide_add(
    area: &[u8],
    base: u64,
    tag: u32,
    data: &[u8],
    use_voids: bool,
) -> Result<Plan, Refusal>
    ensures decides { Decides area.now «data».now (run (to_add tag «data».now use_voids) area.now base) result }
    ensures value { result ≡ planned_for (to_add tag «data».now use_voids) area.now base }
{
    let n = data.len();
    let void = Wanted {
        tag: 0,
        least: n,
        n: 0,
    };
    let (admitted, fit) = Admitted::new(area, base, void)?;
    judge_add(tag, n)?;
    admitted.place(fit, tag, data, use_voids)
}

// Add aligned: checks 1 to 8, then 9, 10, 11 and 14.
pub fn decide_add_aligned(
    area: &[u8],
    base: u64,
    tag: u32,
    data: &[u8],
    exponent: u32,
) -> Result<Plan, Refusal>
    ensures decides { Decides area.now «data».now (run (to_add_aligned tag «data».now exponent) area.now base) result }
    ensures value { result ≡ planned_for (to_add_aligned tag «data».now exponent) area.now base }
{
    let (admitted, _) = Admitted::new(area, base, Wanted::nothing())?;
    judge_add(tag, data.len())?;
    if refuses_align(exponent) {
        return Err(Refusal::Align);
    }
    let alignment = admitted.list.header.alignment.max(exponent as u8);
    admitted.at_end(admitted.padding_for(exponent), alignment, tag, data)
}

// Void: checks 1 to 8, then 9 and 13. The walk of the check remembers the entry.
pub fn decide_void(area: &[u8], base: u64, tag: u32, n: u64) -> Result<Plan, Refusal>
    ensures decides { Decides area.now [] (run (to_void tag n) area.now base) result }
    ensures value { result ≡ planned_for (to_void tag n) area.now base }
{
    let (admitted, found) = Admitted::new(area, base, Wanted { tag, least: 0, n })?;
    if tags::refuses_tag(tag) {
        return Err(Refusal::Tag);
    }
    let e = found.ok_or(Refusal::None)?;
    let p = void_plan(admitted.list.header, e);
    Ok(sum::with_checksum(p, admitted.list, &[]))
}
