// The area that a plan makes of the one that stands, byte by byte, and the words of it that change. Nothing here writes.
#![tactic(auto)]

pub mod bytes;
mod search;

ghost use Rattle.std.specs.Prelude.{length};
ghost use Rattle.words.specs.Words.{Writable};

use plan::Plan;

// An edit before its first store: its plan, the area that still stands, and the data. The plan can be written into that area.
#[derive(Clone, Copy)]
pub struct Edit<'a> {
    pub plan: Plan,
    pub area: &'a [u8],
    pub data: &'a [u8],
    pub ghost writable: { Writable plan (length area.now) (length «data».now) },
}
