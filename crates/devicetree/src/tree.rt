// The whole of the data.
ghost use Rattle.devicetree.specs.Tree.{Root, Structure, Blocks as BlocksRule, Tree, Checked};
ghost use Rattle.devicetree.specs.Decided.{Answers, Decides};

use crate::blocks::Blocks;
use crate::header::Header;
use crate::tokens::Kind;
use crate::{header, tokens};

// The refusal's number.
pub const FDT: u32 = 21;

// The number of nodes inside each other, the root counted.
pub const DEEPEST: usize = 16;

impl Blocks<'_> {
    // One root, its name empty.
    fn root(&self, at: usize) -> Option<usize>
        ensures { Decides (Root self.now.structure.now self.now.strings.now at) result }
    {
        let (Kind::BeginNode, a) = tokens::next_token(self.structure, at)? else {
            return None;
        };
        if *self.structure.get(a)? != 0 {
            return None;
        }
        self.node(a, DEEPEST)
    }

    // The root, then END, which ends where the structure block does.
    fn tree(&self, at: usize) -> bool
        ensures { Answers (Structure self.now.structure.now self.now.strings.now at) result }
    {
        let Some(n) = self.root(at) else {
            return false;
        };
        let Some((kind, e)) = tokens::next_token(self.structure, n) else {
            return false;
        };
        kind == Kind::End && e == self.structure.len()
    }
}

// What the header h of d has to keep, and the blocks that it places.
fn blocks(d: &[u8], h: Header) -> bool
    ensures { Answers (BlocksRule d.now h) result }
{
    if !h.headed(d.len()) {
        return false;
    }
    let at = h.off_dt_struct as usize;
    let reserved = h.off_mem_rsvmap as usize;
    header::reservation(d, reserved, at) && h.blocks(d).tree(at)
}

// Whether the data is a tree by the grammar.
pub fn tree(d: &[u8]) -> bool
    ensures { Answers (Tree d.now) result }
{
    if d.len() < Header::SIZE {
        return false;
    }
    blocks(d, Header::read(d))
}

// 0 where the data is a tree by the grammar, else refusal 21: the number that C gets.
pub fn check(d: &[u8]) -> u32
    ensures { Checked d.now result }
{
    if tree(d) { 0 } else { FDT }
}
