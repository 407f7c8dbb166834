// What follows a token: a node's name, a property.
ghost use Rattle.std.specs.Prelude.{◌<◌};
ghost use Rattle.devicetree.specs.Structure.{Padding, Name, Value, Property};
ghost use Rattle.devicetree.specs.Decided.{Decides};

use crate::blocks::Blocks;
use crate::bytes;

// The padding from a place on.
fn padding(s: &[u8], at: usize) -> Option<usize>
    requires { at < 0xffff_ffff_ffff_fff0 }
    ensures { Decides (Padding s.now at) result }
{
    let n = (at + 3) / 4 * 4;
    if s.len() < n {
        return None;
    }
    bytes::zeros(s, at, n).then_some(n)
}

// A node's name from a place on.
pub fn name(s: &[u8], at: usize) -> Option<usize>
    ensures { Decides (Name s.now at) result }
{
    let z = bytes::first_zero(s, at)?;
    padding(s, z + 1)
}

// What follows a property's token, but for its name.
pub fn value(s: &[u8], at: usize) -> Option<usize>
    ensures { Decides (Value s.now at) result }
{
    if s.len().checked_sub(8)? < at {
        return None;
    }
    let len = bytes::cell(s, at) as usize;
    padding(s, at + 8 + len)
}

impl Blocks<'_> {
    // What follows a property's token.
    pub(crate) fn property(&self, at: usize) -> Option<usize>
        ensures { Decides (Property self.now.structure.now self.now.strings.now at) result }
    {
        let n = value(self.structure, at)?;
        let name = bytes::cell(self.structure, at + 4) as usize;
        bytes::first_zero(self.strings, name)?;
        Some(n)
    }
}
