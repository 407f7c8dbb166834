// What each form decides, and where its steps begin. Reading only.
// Three functions: each is two lines, and one over a decision would need a contract longer than they are.
ghost use Rattle.std.specs.Prelude.{◌≡◌};
ghost use Rattle.rules.specs.Edit.{to_add, to_add_aligned, to_void};
ghost use Rattle.journal.specs.Journal.{memory};
ghost use Rattle.plan.specs.Plan.{CanWrite};
ghost use Rattle.journalled.specs.Journalled.{start_for, Begins, start_planned, SurvivesPlanned};

use edit::decide;
use plan::Plan;
use rules::{DoneAnswer, Refusal};
use steps::{Steps, begin};

// Where what was decided begins.
fn start(planned: Result<Plan, Refusal>, area: &[u8], data: &[u8], journal: &[u8]) -> Steps
    requires { CanWrite area.now «data».now planned }
    ensures value { result ≡ start_planned «data».now planned (memory journal.now area.now) }
    ensures survives_planned { SurvivesPlanned «data».now planned (memory journal.now area.now) result }
{
    match planned {
        Ok(p) => begin::edit_start(p, area, data, journal),
        Err(r) => Steps::stopped(DoneAnswer::from(Err(r))),
    }
}

// An add.
pub fn add(area: &[u8], base: u64, tag: u32, data: &[u8], use_voids: bool, journal: &[u8]) -> Steps
    ensures value { result ≡ start_for (to_add tag «data».now use_voids) journal.now area.now base }
    ensures begins { Begins (to_add tag «data».now use_voids) journal.now area.now base }
{
    let planned = decide::decide_add(area, base, tag, data, use_voids);
    start(planned, area, data, journal)
}

// An aligned add.
pub fn add_aligned(
    area: &[u8],
    base: u64,
    tag: u32,
    data: &[u8],
    exponent: u32,
    journal: &[u8],
) -> Steps
    ensures value { result ≡ start_for (to_add_aligned tag «data».now exponent) journal.now area.now base }
    ensures begins { Begins (to_add_aligned tag «data».now exponent) journal.now area.now base }
{
    let planned = decide::decide_add_aligned(area, base, tag, data, exponent);
    start(planned, area, data, journal)
}

// A void, which has no data.
pub fn void(area: &[u8], base: u64, tag: u32, n: u64, journal: &[u8]) -> Steps
    ensures value { result ≡ start_for (to_void tag n) journal.now area.now base }
    ensures begins { Begins (to_void tag n) journal.now area.now base }
{
    let planned = decide::decide_void(area, base, tag, n);
    start(planned, area, &[], journal)
}
