// The functions that are shipped, for Rattle; `transfer_list_c` exports them to C, but for find's second forms. Each is thin and has the
// whole statement: no requires, an equation for the answer and one for each buffer that is lent for writing. What an edit is promised to do
// is one record, `Promised`: its answer is that of the written rules, so is every lent byte afterwards, and where the number is 0 all of
// demand 3 holds. What a conversion is promised to do is `ConvertPromised`, likewise, with what holds of a converted list. The rules of the
// device tree's functions are relations, each of which settles the answer: `checked-only`, `lookup_only`, `part-only`. Of request 9's calls,
// `Begins` is what holds of the steps that a call has decided on, and `Journalled` what a whole form is promised to do; a step and a
// recovery have equations.
#![tactic(auto)]

ghost use Rattle.std.specs.Prelude.{◌≡◌, ◌+◌, []};
ghost use Rattle.rules.specs.Check.{check as check_rule, check_answer};
ghost use Rattle.rules.specs.Find.{find as find_rule, find_answer, find_data, part_offset};
ghost use Rattle.rules.specs.Outcome.{answer, bytes_after, done_answer};
ghost use Rattle.rules.specs.Create.{create as create_rule};
ghost use Rattle.rules.specs.Edit.{to_add, to_add_aligned, to_void, to_relocate, to_tidy};
ghost use Rattle.rules.specs.Demand3.{Promised, Keeps};
ghost use Rattle.rules.specs.Edition09.{check09, find09, find_data09, ConvertPromised};
ghost use Rattle.rules.specs.Certificate.{certify as certify_rule, certified_answer};
ghost use Rattle.journal.specs.Journal.{memory};
ghost use Rattle.steps.specs.Steps.{step_of, stepped, report, recover_start, ended, to_end, recovered};
ghost use Rattle.steps.specs.Survives.{GoesAsRecovery};
ghost use Rattle.journalled.specs.Journalled.{start_for, Begins, Journalled};
ghost use Rattle.devicetree.specs.Tree.{Checked as FdtChecked};
ghost use Rattle.lookup.specs.Lookup.{Lookup, LookupPart};

use certificate::certify;
use convert::convert;
use create::create;
use devicetree::tree;
use edit::edits;
use journalled::{forms, starts};
use relocate::relocate;
use rules::certificate::CertifiedAnswer;
use rules::{CheckAnswer, DoneAnswer, FindAnswer};
use steps::{Stepped, Steps, advance, begin, whole};
use tidy::tidy;
use walk::format::Format;
use walk::{check, find};

// Checks the list in area, which stands at base.
pub fn tl_check(area: &[u8], base: u64) -> CheckAnswer
    ensures { result ≡ check_answer (check_rule area.now base) }
{
    check::check(Format::Current, area, base).into()
}

// Finds the data of occurrence n of a tag.
pub fn tl_find(area: &[u8], base: u64, tag: u32, n: u64) -> FindAnswer
    ensures { result ≡ find_answer (find_rule area.now base tag n) }
{
    find::find(Format::Current, area, base, tag, n).into()
}

// The data itself, as a part of the caller's area; the empty part where find refuses. C has no such result: there the header's tl_data
// makes a pointer of tl_find's answer.
pub fn tl_find_data(area: &[u8], base: u64, tag: u32, n: u64) -> &[u8]
    ensures value { result.now ≡ find_data area.now base tag n }
    ensures same_memory { result.ref_ptr.0 ≡ area.entry.ref_ptr.0 }
    ensures at_offset { result.ref_ptr.1 ≡ area.entry.ref_ptr.1 + part_offset (find_rule area.now base tag n) }
{
    find::find_data(Format::Current, area, base, tag, n)
}

// Writes a new list without entries. Answers the total.
pub fn tl_create(area: &mut [u8], base: u64, has_checksum: bool) -> DoneAnswer
    ensures value { result ≡ done_answer (answer (create_rule area.old base has_checksum)) }
    ensures area_after { area.new ≡ bytes_after area.old (create_rule area.old base has_checksum) }
{
    create::create(area, base, has_checksum).into()
}

// Adds an entry. Answers the new data's offset.
pub fn tl_add(area: &mut [u8], base: u64, tag: u32, data: &[u8], use_voids: bool) -> DoneAnswer
    ensures { Promised (to_add tag «data».now use_voids) area.old base result area.new }
{
    edits::add(area, base, tag, data, use_voids).into()
}

// Adds an entry whose data address is a multiple of 2^exponent. Answers the new data's offset.
pub fn tl_add_aligned(
    area: &mut [u8],
    base: u64,
    tag: u32,
    data: &[u8],
    exponent: u32,
) -> DoneAnswer
    ensures { Promised (to_add_aligned tag «data».now exponent) area.old base result area.new }
{
    edits::add_aligned(area, base, tag, data, exponent).into()
}

// Turns occurrence n of a tag into a void. Answers the voided entry's offset.
pub fn tl_void(area: &mut [u8], base: u64, tag: u32, n: u64) -> DoneAnswer
    ensures { Promised (to_void tag n) area.old base result area.new }
{
    edits::void(area, base, tag, n).into()
}

// Relocates the list into the target. Answers the shift.
pub fn tl_relocate(area: &[u8], base: u64, target: &mut [u8], target_base: u64) -> DoneAnswer
    ensures { Promised (to_relocate target.old target_base) area.now base result target.new }
{
    relocate::relocate(area, base, target, target_base).into()
}

// Checks the list of edition 0.9 in area, which stands at base. Edition 0.9's calls have names of their own, as C has them.
pub fn tl09_check(area: &[u8], base: u64) -> CheckAnswer
    ensures { result ≡ check_answer (check09 area.now base) }
{
    check::check(Format::Edition09, area, base).into()
}

// Finds the data of occurrence n of a tag in a list of edition 0.9.
pub fn tl09_find(area: &[u8], base: u64, tag: u32, n: u64) -> FindAnswer
    ensures { result ≡ find_answer (find09 area.now base tag n) }
{
    find::find(Format::Edition09, area, base, tag, n).into()
}

// The data itself, as a part of the caller's area; the empty part where tl09_find refuses.
pub fn tl09_find_data(area: &[u8], base: u64, tag: u32, n: u64) -> &[u8]
    ensures value { result.now ≡ find_data09 area.now base tag n }
    ensures same_memory { result.ref_ptr.0 ≡ area.entry.ref_ptr.0 }
    ensures at_offset { result.ref_ptr.1 ≡ area.entry.ref_ptr.1 + part_offset (find09 area.now base tag n) }
{
    find::find_data(Format::Edition09, area, base, tag, n)
}

// Converts the list of edition 0.9 into the target, as a current list with checksums on. Answers the shift.
pub fn tl09_convert(area: &[u8], base: u64, target: &mut [u8], target_base: u64) -> DoneAnswer
    ensures { ConvertPromised area.now base target.old target_base result target.new }
{
    convert::convert(area, base, target, target_base).into()
}

// Tidies the list's voids. Answers the new used size.
pub fn tl_tidy(area: &mut [u8], base: u64) -> DoneAnswer
    ensures { Promised to_tidy area.old base result area.new }
{
    tidy::tidy(area, base).into()
}

// The reading of the list's one test certificate, if it is that of this serial and test, and whether it passes its gate.
pub fn tl_certificate(area: &[u8], base: u64, serial: u64, test: u64) -> CertifiedAnswer
    ensures { result ≡ certified_answer (certify_rule area.now base serial test) }
{
    certify::certify(area, base, serial, test).into()
}

// Checks a flattened device tree, which it takes alone. Answers 0, or 21.
pub fn tl_fdt_check(data: &[u8]) -> u32
    ensures { FdtChecked «data».now result }
{
    tree::check(data)
}

// Finds the value of a property of a flattened device tree, by its node's path and its name.
pub fn tl_fdt_find(data: &[u8], path: &[u8], name: &[u8]) -> FindAnswer
    ensures { Lookup «data».now path.now name.now result }
{
    lookup::find::find(data, path, name)
}

// The value itself, as a part of the caller's data; the empty part at its start where the lookup refuses.
pub fn tl_fdt_find_data<'a>(data: &'a [u8], path: &[u8], name: &[u8]) -> &'a [u8]
    ensures same_memory { result.ref_ptr.0 ≡ «data».entry.ref_ptr.0 }
    ensures lookup_part { LookupPart «data».now path.now name.now «data».entry.ref_ptr.1 result.now result.ref_ptr.1 }
{
    lookup::find::find_data(data, path, name)
}

// Adds an entry, with a journal. Answers the new data's offset.
pub fn tl_add_journalled(
    area: &mut [u8],
    base: u64,
    tag: u32,
    data: &[u8],
    use_voids: bool,
    journal: &mut [u8],
) -> DoneAnswer
    ensures journalled { Journalled (to_add tag «data».now use_voids) journal.old area.old base
        (ended result (memory journal.new area.new)) }
    ensures keeps { Keeps (to_add tag «data».now use_voids) area.old base result area.new }
{
    forms::add(area, base, tag, data, use_voids, journal)
}

// Adds an entry whose data address is a multiple of 2^exponent, with a journal. Answers the new data's offset.
pub fn tl_add_aligned_journalled(
    area: &mut [u8],
    base: u64,
    tag: u32,
    data: &[u8],
    exponent: u32,
    journal: &mut [u8],
) -> DoneAnswer
    ensures journalled { Journalled (to_add_aligned tag «data».now exponent) journal.old area.old base
        (ended result (memory journal.new area.new)) }
    ensures keeps { Keeps (to_add_aligned tag «data».now exponent) area.old base result area.new }
{
    forms::add_aligned(area, base, tag, data, exponent, journal)
}

// Turns occurrence n of a tag into a void, with a journal. Answers the voided entry's offset.
pub fn tl_void_journalled(
    area: &mut [u8],
    base: u64,
    tag: u32,
    n: u64,
    journal: &mut [u8],
) -> DoneAnswer
    ensures journalled { Journalled (to_void tag n) journal.old area.old base
        (ended result (memory journal.new area.new)) }
    ensures keeps { Keeps (to_void tag n) area.old base result area.new }
{
    forms::void(area, base, tag, n, journal)
}

// Recovers what a power cut has left of a journalled edit. Answers 0, or 17.
pub fn tl_recover(area: &mut [u8], journal: &mut [u8]) -> DoneAnswer
    ensures area_after { ended result (memory journal.new area.new) ≡ recovered (memory journal.old area.old) }
    ensures by_steps { ended result (memory journal.new area.new)
        ≡ to_end [] (recover_start (memory journal.old area.old)) (memory journal.old area.old) }
{
    whole::recover(area, journal)
}

// Decides an add with a journal, and stores nothing.
pub fn tl_add_steps(
    area: &[u8],
    base: u64,
    tag: u32,
    data: &[u8],
    use_voids: bool,
    journal: &[u8],
) -> Stepped
    ensures value { result ≡ report (start_for (to_add tag «data».now use_voids) journal.now area.now base) }
    ensures begins { Begins (to_add tag «data».now use_voids) journal.now area.now base }
{
    starts::add(area, base, tag, data, use_voids, journal).report()
}

// Decides an aligned add with a journal, and stores nothing.
pub fn tl_add_aligned_steps(
    area: &[u8],
    base: u64,
    tag: u32,
    data: &[u8],
    exponent: u32,
    journal: &[u8],
) -> Stepped
    ensures value { result ≡ report (start_for (to_add_aligned tag «data».now exponent) journal.now area.now base) }
    ensures begins { Begins (to_add_aligned tag «data».now exponent) journal.now area.now base }
{
    starts::add_aligned(area, base, tag, data, exponent, journal).report()
}

// Decides a void with a journal, and stores nothing.
pub fn tl_void_steps(area: &[u8], base: u64, tag: u32, n: u64, journal: &[u8]) -> Stepped
    ensures value { result ≡ report (start_for (to_void tag n) journal.now area.now base) }
    ensures begins { Begins (to_void tag n) journal.now area.now base }
{
    starts::void(area, base, tag, n, journal).report()
}

// Decides a recovery, and stores nothing.
pub fn tl_recover_steps(area: &[u8], journal: &[u8]) -> Stepped
    ensures value { result ≡ report (recover_start (memory journal.now area.now)) }
    ensures goes_as_recovery { GoesAsRecovery (memory journal.now area.now) result.state }
{
    begin::recover_start(area, journal).report()
}

// One step from any state: it stores one byte, or nothing.
pub fn tl_step(state: Steps, area: &mut [u8], data: &[u8], journal: &mut [u8]) -> Stepped
    ensures value { result ≡ report (step_of «data».now state (memory journal.old area.old)).next }
    ensures area_after { memory journal.new area.new
        ≡ stepped «data».now state (memory journal.old area.old) }
{
    advance::step(state, area, data, journal)
}
