// The members of a node. They are looped over, so that the stack is as deep as the nodes are nested, and no deeper.
ghost use Rattle.std.specs.Prelude.{true};
ghost use Rattle.devicetree.specs.Structure.{Members};
ghost use Rattle.devicetree.specs.Decided.{Decides};

use crate::blocks::Blocks;
use crate::tokens;
use crate::tokens::Kind;

impl Blocks<'_> {
    // The members of a node up to and with its END_NODE, with at most depth nodes inside each other among them.
    #[cycle(members_node)]
    pub(crate) fn members(&self, at: usize, depth: usize) -> Option<usize>
        ensures { Decides (Members self.now.structure.now self.now.strings.now true depth at) result }
    {
        let mut p = at;
        let mut properties = true;
        loop {
            let (kind, n) = tokens::next_token(self.structure, p)?;
            match kind {
                Kind::EndNode => return Some(n),
                Kind::BeginNode => {
                    p = self.node(n, depth)?;
                    properties = false;
                }
                Kind::Prop if properties => p = self.property(n)?,
                _ => return None,
            }
        }
    }
}
