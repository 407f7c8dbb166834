// Add, add aligned and void: the decision, then what was decided is carried out.
// Three functions: each is two lines, and one over a decision would need a contract longer than they are.
ghost use Rattle.std.specs.Prelude.{◌≡◌};
ghost use Rattle.rules.specs.Outcome.{answer, bytes_after};
ghost use Rattle.rules.specs.Edit.{run, to_add, to_add_aligned, to_void};

use crate::decide;
use plan::write;
use rules::Refusal;

// Adds an entry with a tag and data; voids may be used or not. Answers the new data's offset.
pub fn add(
    area: &mut [u8],
    base: u64,
    tag: u32,
    data: &[u8],
    use_voids: bool,
) -> Result<u32, Refusal>
    ensures value { result ≡ answer (run (to_add tag «data».now use_voids) area.old base) }
    ensures area_after { area.new ≡ bytes_after area.old (run (to_add tag «data».now use_voids) area.old base) }
{
    let planned = decide::decide_add(area, base, tag, data, use_voids);
    write::carry_out(area, planned, data)
}

// Adds an entry whose data address is a multiple of 2^exponent. Answers the new data's offset.
pub fn add_aligned(
    area: &mut [u8],
    base: u64,
    tag: u32,
    data: &[u8],
    exponent: u32,
) -> Result<u32, Refusal>
    ensures value { result ≡ answer (run (to_add_aligned tag «data».now exponent) area.old base) }
    ensures area_after { area.new ≡ bytes_after area.old (run (to_add_aligned tag «data».now exponent) area.old base) }
{
    let planned = decide::decide_add_aligned(area, base, tag, data, exponent);
    write::carry_out(area, planned, data)
}

// Turns occurrence n of a tag into a void. Answers the voided entry's offset.
pub fn void(area: &mut [u8], base: u64, tag: u32, n: u64) -> Result<u32, Refusal>
    ensures value { result ≡ answer (run (to_void tag n) area.old base) }
    ensures area_after { area.new ≡ bytes_after area.old (run (to_void tag n) area.old base) }
{
    let planned = decide::decide_void(area, base, tag, n);
    write::carry_out(area, planned, &[])
}
