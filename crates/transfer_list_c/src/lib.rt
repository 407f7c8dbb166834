// The archive for C: each export hands its arguments to the function of its name in `transfer_list`, whose clauses stand here again.
#![tactic(auto)]

ghost use Rattle.std.specs.Prelude.{◌≡◌, ◌+◌, []};
ghost use Rattle.rules.specs.Check.{check as check_rule, check_answer};
ghost use Rattle.rules.specs.Find.{find as find_rule, find_answer, find_data, part_offset};
ghost use Rattle.rules.specs.Outcome.{answer, bytes_after, done_answer};
ghost use Rattle.rules.specs.Create.{create as create_rule};
ghost use Rattle.rules.specs.Edit.{to_add, to_add_aligned, to_void, to_relocate, to_tidy};
ghost use Rattle.rules.specs.Demand3.{Promised, Keeps};
ghost use Rattle.rules.specs.Edition09.{check09, find09, find_data09, ConvertPromised};
ghost use Rattle.rules.specs.Certificate.{certify as certify_rule, certified_answer};
ghost use Rattle.journal.specs.Journal.{memory};
ghost use Rattle.steps.specs.Steps.{step_of, stepped, report, recover_start, ended, to_end, recovered};
ghost use Rattle.steps.specs.Survives.{GoesAsRecovery};
ghost use Rattle.journalled.specs.Journalled.{start_for, Begins, Journalled};
ghost use Rattle.devicetree.specs.Tree.{Checked as FdtChecked};
ghost use Rattle.lookup.specs.Lookup.{Lookup, LookupPart};

use rules::certificate::CertifiedAnswer;
use rules::{CheckAnswer, DoneAnswer, FindAnswer};
use steps::{Stepped, Steps};

// Checks the list in area, which stands at base.
#[unsafe(no_mangle)]
pub extern "C" fn tl_check(area: &[u8], base: u64) -> CheckAnswer
    ensures { result ≡ check_answer (check_rule area.now base) }
{
    transfer_list::tl_check(area, base)
}

// Finds the data of occurrence n of a tag.
#[unsafe(no_mangle)]
pub extern "C" fn tl_find(area: &[u8], base: u64, tag: u32, n: u64) -> FindAnswer
    ensures { result ≡ find_answer (find_rule area.now base tag n) }
{
    transfer_list::tl_find(area, base, tag, n)
}

// Writes a new list without entries. Answers the total.
#[unsafe(no_mangle)]
pub extern "C" fn tl_create(area: &mut [u8], base: u64, has_checksum: bool) -> DoneAnswer
    ensures value { result ≡ done_answer (answer (create_rule area.old base has_checksum)) }
    ensures area_after { area.new ≡ bytes_after area.old (create_rule area.old base has_checksum) }
{
    transfer_list::tl_create(area, base, has_checksum)
}

// Adds an entry. Answers the new data's offset.
#[unsafe(no_mangle)]
pub extern "C" fn tl_add(
    area: &mut [u8],
    base: u64,
    tag: u32,
    data: &[u8],
    use_voids: bool,
) -> DoneAnswer
    ensures { Promised (to_add tag «data».now use_voids) area.old base result area.new }
{
    transfer_list::tl_add(area, base, tag, data, use_voids)
}

// Adds an entry whose data address is a multiple of 2^exponent. Answers the new data's offset.
#[unsafe(no_mangle)]
pub extern "C" fn tl_add_aligned(
    area: &mut [u8],
    base: u64,
    tag: u32,
    data: &[u8],
    exponent: u32,
) -> DoneAnswer
    ensures { Promised (to_add_aligned tag «data».now exponent) area.old base result area.new }
{
    transfer_list::tl_add_aligned(area, base, tag, data, exponent)
}

// Turns occurrence n of a tag into a void. Answers the voided entry's offset.
#[unsafe(no_mangle)]
pub extern "C" fn tl_void(area: &mut [u8], base: u64, tag: u32, n: u64) -> DoneAnswer
    ensures { Promised (to_void tag n) area.old base result area.new }
{
    transfer_list::tl_void(area, base, tag, n)
}

// Relocates the list into the target. Answers the shift.
#[unsafe(no_mangle)]
pub extern "C" fn tl_relocate(
    area: &[u8],
    base: u64,
    target: &mut [u8],
    target_base: u64,
) -> DoneAnswer
    ensures { Promised (to_relocate target.old target_base) area.now base result target.new }
{
    transfer_list::tl_relocate(area, base, target, target_base)
}

// Checks the list of edition 0.9 in area, which stands at base.
#[unsafe(no_mangle)]
pub extern "C" fn tl09_check(area: &[u8], base: u64) -> CheckAnswer
    ensures { result ≡ check_answer (check09 area.now base) }
{
    transfer_list::tl09_check(area, base)
}

// Finds the data of occurrence n of a tag in a list of edition 0.9.
#[unsafe(no_mangle)]
pub extern "C" fn tl09_find(area: &[u8], base: u64, tag: u32, n: u64) -> FindAnswer
    ensures { result ≡ find_answer (find09 area.now base tag n) }
{
    transfer_list::tl09_find(area, base, tag, n)
}

// Converts the list of edition 0.9 into the target, as a current list with checksums on. Answers the shift.
#[unsafe(no_mangle)]
pub extern "C" fn tl09_convert(
    area: &[u8],
    base: u64,
    target: &mut [u8],
    target_base: u64,
) -> DoneAnswer
    ensures { ConvertPromised area.now base target.old target_base result target.new }
{
    transfer_list::tl09_convert(area, base, target, target_base)
}

// Tidies the list's voids. Answers the new used size.
#[unsafe(no_mangle)]
pub extern "C" fn tl_tidy(area: &mut [u8], base: u64) -> DoneAnswer
    ensures { Promised to_tidy area.old base result area.new }
{
    transfer_list::tl_tidy(area, base)
}

// The reading of the list's one test certificate, if it is that of this serial and test, and whether it passes its gate.
#[unsafe(no_mangle)]
pub extern "C" fn tl_certificate(area: &[u8], base: u64, serial: u64, test: u64) -> CertifiedAnswer
    ensures { result ≡ certified_answer (certify_rule area.now base serial test) }
{
    transfer_list::tl_certificate(area, base, serial, test)
}

// Checks a flattened device tree, which it takes alone. Answers 0, or 21.
#[unsafe(no_mangle)]
pub extern "C" fn tl_fdt_check(data: &[u8]) -> u32
    ensures { FdtChecked «data».now result }
{
    transfer_list::tl_fdt_check(data)
}

// Finds the value of a property of a flattened device tree, by its node's path and its name.
#[unsafe(no_mangle)]
pub extern "C" fn tl_fdt_find(data: &[u8], path: &[u8], name: &[u8]) -> FindAnswer
    ensures { Lookup «data».now path.now name.now result }
{
    transfer_list::tl_fdt_find(data, path, name)
}

// Adds an entry, with a journal. Answers the new data's offset.
#[unsafe(no_mangle)]
pub extern "C" fn tl_add_journalled(
    area: &mut [u8],
    base: u64,
    tag: u32,
    data: &[u8],
    use_voids: bool,
    journal: &mut [u8],
) -> DoneAnswer
    ensures journalled { Journalled (to_add tag «data».now use_voids) journal.old area.old base
        (ended result (memory journal.new area.new)) }
    ensures keeps { Keeps (to_add tag «data».now use_voids) area.old base result area.new }
{
    transfer_list::tl_add_journalled(area, base, tag, data, use_voids, journal)
}

// Adds an entry whose data address is a multiple of 2^exponent, with a journal. Answers the new data's offset.
#[unsafe(no_mangle)]
pub extern "C" fn tl_add_aligned_journalled(
    area: &mut [u8],
    base: u64,
    tag: u32,
    data: &[u8],
    exponent: u32,
    journal: &mut [u8],
) -> DoneAnswer
    ensures journalled { Journalled (to_add_aligned tag «data».now exponent) journal.old area.old base
        (ended result (memory journal.new area.new)) }
    ensures keeps { Keeps (to_add_aligned tag «data».now exponent) area.old base result area.new }
{
    transfer_list::tl_add_aligned_journalled(area, base, tag, data, exponent, journal)
}

// Turns occurrence n of a tag into a void, with a journal. Answers the voided entry's offset.
#[unsafe(no_mangle)]
pub extern "C" fn tl_void_journalled(
    area: &mut [u8],
    base: u64,
    tag: u32,
    n: u64,
    journal: &mut [u8],
) -> DoneAnswer
    ensures journalled { Journalled (to_void tag n) journal.old area.old base
        (ended result (memory journal.new area.new)) }
    ensures keeps { Keeps (to_void tag n) area.old base result area.new }
{
    transfer_list::tl_void_journalled(area, base, tag, n, journal)
}

// Recovers what a power cut has left of a journalled edit. Answers 0, or 17.
#[unsafe(no_mangle)]
pub extern "C" fn tl_recover(area: &mut [u8], journal: &mut [u8]) -> DoneAnswer
    ensures area_after { ended result (memory journal.new area.new) ≡ recovered (memory journal.old area.old) }
    ensures by_steps { ended result (memory journal.new area.new)
        ≡ to_end [] (recover_start (memory journal.old area.old)) (memory journal.old area.old) }
{
    transfer_list::tl_recover(area, journal)
}

// Decides an add with a journal, and stores nothing.
#[unsafe(no_mangle)]
pub extern "C" fn tl_add_steps(
    area: &[u8],
    base: u64,
    tag: u32,
    data: &[u8],
    use_voids: bool,
    journal: &[u8],
) -> Stepped
    ensures value { result ≡ report (start_for (to_add tag «data».now use_voids) journal.now area.now base) }
    ensures begins { Begins (to_add tag «data».now use_voids) journal.now area.now base }
{
    transfer_list::tl_add_steps(area, base, tag, data, use_voids, journal)
}

// Decides an aligned add with a journal, and stores nothing.
#[unsafe(no_mangle)]
pub extern "C" fn tl_add_aligned_steps(
    area: &[u8],
    base: u64,
    tag: u32,
    data: &[u8],
    exponent: u32,
    journal: &[u8],
) -> Stepped
    ensures value { result ≡ report (start_for (to_add_aligned tag «data».now exponent) journal.now area.now base) }
    ensures begins { Begins (to_add_aligned tag «data».now exponent) journal.now area.now base }
{
    transfer_list::tl_add_aligned_steps(area, base, tag, data, exponent, journal)
}

// Decides a void with a journal, and stores nothing.
#[unsafe(no_mangle)]
pub extern "C" fn tl_void_steps(area: &[u8], base: u64, tag: u32, n: u64, journal: &[u8]) -> Stepped
    ensures value { result ≡ report (start_for (to_void tag n) journal.now area.now base) }
    ensures begins { Begins (to_void tag n) journal.now area.now base }
{
    transfer_list::tl_void_steps(area, base, tag, n, journal)
}

// Decides a recovery, and stores nothing.
#[unsafe(no_mangle)]
pub extern "C" fn tl_recover_steps(area: &[u8], journal: &[u8]) -> Stepped
    ensures value { result ≡ report (recover_start (memory journal.now area.now)) }
    ensures goes_as_recovery { GoesAsRecovery (memory journal.now area.now) result.state }
{
    transfer_list::tl_recover_steps(area, journal)
}

// One step from any state: it stores one byte, or nothing.
#[unsafe(no_mangle)]
pub extern "C" fn tl_step(state: Steps, area: &mut [u8], data: &[u8], journal: &mut [u8]) -> Stepped
    ensures value { result ≡ report (step_of «data».now state (memory journal.old area.old)).next }
    ensures area_after { memory journal.new area.new
        ≡ stepped «data».now state (memory journal.old area.old) }
{
    transfer_list::tl_step(state, area, data, journal)
}
