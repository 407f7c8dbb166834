// A node of the tree.
ghost use Rattle.devicetree.specs.Structure.{Node};
ghost use Rattle.devicetree.specs.Decided.{Decides};

use crate::blocks::Blocks;
use crate::parts;

impl Blocks<'_> {
    // What follows a node's token, with at most depth nodes inside each other.
    #[cycle(members_node)]
    pub(crate) fn node(&self, at: usize, depth: usize) -> Option<usize>
        ensures { Decides (Node self.now.structure.now self.now.strings.now depth at) result }
    {
        let inner = depth.checked_sub(1)?;
        let a = parts::name(self.structure, at)?;
        self.members(a, inner)
    }
}
