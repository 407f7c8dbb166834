// The search through the nodes. The data was checked before.
ghost use Rattle.std.specs.Prelude.{◌≡◌, ◌+◌, ◌≤◌, length};
ghost use Rattle.devicetree.specs.Header.{cell};
ghost use Rattle.devicetree.specs.Decided.{Answers};
ghost use Rattle.lookup.specs.Search.{Named, SeeksNode, SeeksMembers, SeeksRoot};

use crate::{names, skip};
use devicetree::blocks::Blocks;
use devicetree::tokens::Kind;
use devicetree::{bytes, parts, tokens, tree};

// What a search comes to: where a property's value stands and how long it is, or the place behind what was searched.
#[derive(Clone, Copy)]
pub(crate) enum Hit {
    Found(usize, usize),
    After(usize),
}

// The blocks that are searched, and the property's name.
#[derive(Clone, Copy)]
pub(crate) struct Search<'a> {
    pub(crate) blocks: Blocks<'a>,
    pub(crate) name: &'a [u8],
}

impl Search<'_> {
    // The path ends here, and the property whose token ends at a place has the name.
    fn is_wanted(&self, at: usize, path: &[u8]) -> bool
        requires { at + 8 ≤ length self.now.blocks.structure.now }
        ensures { Answers ((length path.now ≡ 0)
            × Named self.now.blocks.strings.now (cell self.now.blocks.structure.now (at + 4)) self.now.name.now) result }
    {
        if path.len() != 0 {
            return false;
        }
        let offset = bytes::cell(self.blocks.structure, at + 4) as usize;
        names::named(self.blocks.strings, offset, self.name)
    }

    // The first property inside a node, from its name on, that has the name and stands under what is left of the path.
    #[cycle(seek_members_seek_node)]
    fn node(&self, at: usize, depth: usize, path: &[u8]) -> Option<Hit>
        ensures { SeeksNode self.now.blocks.structure.now self.now.blocks.strings.now depth at path.now self.now.name.now result }
    {
        let Some(e) = names::enters(self.blocks.structure, at, path) else {
            let m = skip::skip_node(self.blocks.structure, at, depth)?;
            return Some(Hit::After(m));
        };
        let inner = depth.checked_sub(1)?;
        let a = parts::name(self.blocks.structure, at)?;
        self.members(a, inner, &path[e..])
    }

    // The same among a node's members.
    #[cycle(seek_members_seek_node)]
    fn members(&self, at: usize, depth: usize, path: &[u8]) -> Option<Hit>
        ensures { SeeksMembers self.now.blocks.structure.now self.now.blocks.strings.now depth at path.now self.now.name.now result }
    {
        let mut p = at;
        loop {
            let (kind, n) = tokens::next_token(self.blocks.structure, p)?;
            match kind {
                Kind::EndNode => return Some(Hit::After(n)),
                Kind::BeginNode => match self.node(n, depth, path)? {
                    Hit::Found(offset, size) => return Some(Hit::Found(offset, size)),
                    Hit::After(m) => p = m,
                },
                _ => {
                    let m = parts::value(self.blocks.structure, n)?;
                    if self.is_wanted(n, path) {
                        let offset = n + 8;
                        let size = bytes::cell(self.blocks.structure, n) as usize;
                        return Some(Hit::Found(offset, size));
                    }
                    p = m;
                }
            }
        }
    }

    // The same from the root on.
    pub(crate) fn root(&self, at: usize, path: &[u8]) -> Option<Hit>
        ensures { SeeksRoot self.now.blocks.structure.now self.now.blocks.strings.now at path.now self.now.name.now result }
    {
        let (_, n) = tokens::next_token(self.blocks.structure, at)?;
        let a = parts::name(self.blocks.structure, n)?;
        self.members(a, tree::DEEPEST - 1, path)
    }
}
