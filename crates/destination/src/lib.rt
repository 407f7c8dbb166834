// Where a list is put when it goes into another area: refusals 12 and 14, the new base, and the target's bytes around the list.
#![tactic(auto)]

ghost use Rattle.std.specs.Prelude.{◌≡◌, ◌+◌, ◌≤◌, ◌<◌, ◌^◌, length};
ghost use Rattle.rules.specs.Refusals.{refuses_target};
ghost use Rattle.rules.specs.Relocate.{new_base as new_base_rule, in_target};
ghost use Rattle.destination.specs.Place.{placed};

use rules::Refusal;

// Refusal 12.
pub(crate) fn refuses_target(base: u64, len: usize) -> bool
    ensures { result ≡ refuses_target base len }
{
    if rules::MAX_LENGTH < len {
        return true;
    }
    if rules::MAX_ADDRESS < base {
        return true;
    }
    rules::MAX_ADDRESS < base + len as u64
}

// The lowest address at or above target that equals base modulo 2^alignment.
pub(crate) fn new_base(alignment: u8, base: u64, target: u64) -> u64
    requires { (alignment < 32) × (target < 2 ^ 62) }
    ensures { result ≡ new_base_rule (2 ^ alignment) base target }
{
    let m = 1u64 << alignment;
    let candidate = target / m * m + base % m;
    if candidate < target {
        return candidate + m;
    }
    candidate
}

// The place of a list of used bytes in a target of len bytes: refused by 12, refused by 14, or how far behind target_base the lowest address
// lies that, with growth added, equals base modulo 2^alignment.
pub fn find_place(
    alignment: u8,
    base: u64,
    target_base: u64,
    len: usize,
    used: usize,
    growth: usize,
) -> Result<usize, Refusal>
    requires { (alignment < 32) × (used < 2 ^ 33) × (growth < 2 ^ 32) }
    ensures { result ≡ placed (2 ^ alignment) base growth target_base len used }
{
    if refuses_target(target_base, len) {
        return Err(Refusal::Target);
    }
    let from = target_base + growth as u64;
    let shift = (new_base(alignment, base, from) - from) as usize;
    if len < shift + used {
        return Err(Refusal::Room);
    }
    Ok(shift)
}

// A list from the shift on, and zero in every other byte of the target.
pub fn lay_out(target: &mut [u8], shift: usize, list: &[u8])
    requires { shift + length list.now ≤ length target.old }
    ensures { target.new ≡ in_target (length target.old) shift list.now }
{
    let behind = shift + list.len();
    let left = target.len() - shift - list.len();
    wire::zero_part(target, 0, shift);
    wire::copy_part(target, shift, list);
    wire::zero_part(target, behind, left);
}
