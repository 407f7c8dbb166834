// Writing a plan, piece by piece, and carrying out what an edit has decided.
ghost use Rattle.std.specs.Prelude.{◌≡◌, ◌+◌, ◌≤◌, ◌<◌, ◌^◌, ◌++◌, length, replicate};
ghost use Rattle.wire.specs.Bytes.{splice};
ghost use Rattle.rules.specs.Header.{header_of, header_size};
ghost use Rattle.rules.specs.Entries.{entry_header};
ghost use Rattle.rules.specs.Outcome.{answer, bytes_after};
ghost use Rattle.plan.specs.Plan.{void_header, whole_void, fields_after, after, WellFormed, outcome_of, CanWrite};

use crate::Plan;
use rules::Refusal;
use wire::Number;

// The checksum byte, the alignment and used_size.
fn write_fields(a: &mut [u8], p: Plan)
    requires { header_size ≤ length a.old }
    ensures { a.new ≡ fields_after p a.old }
{
    a[4] = p.checksum;
    a[7] = p.alignment;
    p.used_size.write(a, 8);
}

// The header of a void that takes n bytes, if there is one. The whole area with a place in it: `splice` speaks of all its bytes.
fn write_void_header(a: &mut [u8], at: usize, n: usize)
    requires { (at + n ≤ length a.old) × (n < 2 ^ 32) }
    ensures { a.new ≡ splice a.old at (void_header n) }
{
    if n < 8 {
        return;
    }
    let size = n - 8;
    crate::entry_word(0, size as u32).write(a, at);
}

// A void that takes n bytes, its data 0, if there is one. The span is a usize as places are: a u32 would be cast at every use.
pub fn write_void(a: &mut [u8], at: usize, n: usize)
    requires { (at + n ≤ length a.old) × (n < 2 ^ 32) }
    ensures { a.new ≡ splice a.old at (whole_void n) }
{
    write_void_header(a, at, n);
    if n > 8 {
        wire::zero_part(a, at + 8, n - 8);
    }
}

// An entry's header and data, with zeros behind.
fn write_entry(a: &mut [u8], at: usize, tag: u32, size: u32, data: &[u8], zeros: usize)
    requires { (at + 8 + length «data».now + zeros ≤ length a.old) × (tag < 2 ^ 24) }
    ensures { a.new ≡ splice a.old at (entry_header tag size ++ («data».now ++ replicate zeros 0)) }
{
    let from = at + 8;
    crate::entry_word(tag, size).write(a, at);
    wire::copy_part(a, from, data);
    wire::zero_part(a, from + data.len(), zeros);
}

// The whole plan: the header fields, the padding void, the entry, and the header of the void behind.
fn write_plan(a: &mut [u8], p: Plan, data: &[u8])
    requires { WellFormed (header_of a.old) (length a.old) (length «data».now) p }
    ensures { a.new ≡ after p a.old «data».now }
{
    let at = p.at;
    let entry = at + p.padding;
    let behind = entry + 8 + data.len() + p.zeros;
    write_fields(a, p);
    write_void(a, at, p.padding);
    write_entry(a, entry, p.tag_id, p.data_size, data, p.zeros);
    write_void_header(a, behind, p.behind);
}

// Carries out what an edit has decided. A refusal changes no byte.
pub fn carry_out(
    area: &mut [u8],
    planned: Result<Plan, Refusal>,
    data: &[u8],
) -> Result<u32, Refusal>
    requires { CanWrite area.old «data».now planned }
    ensures value { result ≡ answer (outcome_of area.old «data».now planned) }
    ensures area_after { area.new ≡ bytes_after area.old (outcome_of area.old «data».now planned) }
{
    let p = planned?;
    write_plan(area, p, data);
    Ok(p.value)
}
