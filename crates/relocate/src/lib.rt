// Relocate: the used bytes of a list, into another area.
#![tactic(auto)]

ghost use Rattle.std.specs.Prelude.{◌≡◌, ◌+◌, ◌≤◌, ◌<◌, ◌^◌, true, length};
ghost use Rattle.wire.proofs.Range.{Bytes};
ghost use Rattle.rules.specs.Header.{header_size};
ghost use Rattle.rules.specs.Checksum.{checksum_holds};
ghost use Rattle.rules.specs.Outcome.{answer, bytes_after};
ghost use Rattle.rules.specs.Relocate.{target_bytes};
ghost use Rattle.rules.specs.Edit.{run, to_relocate};

use rules::Refusal;
use rules::list::List;
use walk::check;
use walk::format::Format;
use walk::wanted::Wanted;
use wire::Number;

// The target's bytes: zeros, the used bytes with the new total and checksum, zeros.
fn write_target(list: List, target: &mut [u8], shift: usize)
    requires { Bytes list.bytes.now × (checksum_holds list.bytes.now ≡ true) × (header_size ≤ list.header.used_size)
        × (shift + list.header.used_size ≤ length target.old) × (length target.old < 2 ^ 32) }
    ensures { target.new ≡ target_bytes list.entry.bytes.now shift (length target.old) }
{
    let used = list.header.used_size as usize;
    let total = ((target.len() - shift) / 8 * 8) as u32;
    destination::lay_out(target, shift, &list.bytes[..used]);
    target[shift + 4] = plan::sum::total_patch(list.header, total);
    total.write(target, shift + 12);
}

// Relocates the list into the target. Answers the shift: where in the target the list starts.
pub fn relocate(area: &[u8], base: u64, target: &mut [u8], target_base: u64) -> Result<u32, Refusal>
    ensures value { result ≡ answer (run (to_relocate target.old target_base) area.now base) }
    ensures target_after { target.new ≡ bytes_after target.old (run (to_relocate target.old target_base) area.now base) }
{
    let h = check::survey(Format::Current, true, area, base, Wanted::nothing())?.header;
    let list = List {
        bytes: area,
        header: h,
    };
    let needed = h.used_size as usize;
    let shift = destination::find_place(h.alignment, base, target_base, target.len(), needed, 0)?;
    write_target(list, target, shift);
    Ok(shift as u32)
}
