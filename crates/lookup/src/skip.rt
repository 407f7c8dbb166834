// The place behind a node that the path passes by. The data was checked before: neither the order of members nor a property's name is
// judged again.
ghost use Rattle.lookup.specs.Search.{BehindNode, BehindMembers};

use devicetree::tokens::Kind;
use devicetree::{parts, tokens};

// The place behind a node, from its name on.
#[cycle(skip_members_skip_node)]
pub(crate) fn skip_node(s: &[u8], at: usize, depth: usize) -> Option<usize>
    ensures { BehindNode s.now depth at result }
{
    let inner = depth.checked_sub(1)?;
    let a = parts::name(s, at)?;
    skip_members(s, a, inner)
}

// The place behind its members. The check's loop over members and the search's stay apart from this one: they share the next token alone, and
// one loop for the three would take a closure for each arm, within a cycle of calls.
#[cycle(skip_members_skip_node)]
fn skip_members(s: &[u8], at: usize, depth: usize) -> Option<usize>
    ensures { BehindMembers s.now depth at result }
{
    let mut p = at;
    loop {
        let (kind, n) = tokens::next_token(s, p)?;
        match kind {
            Kind::EndNode => return Some(n),
            Kind::BeginNode => p = skip_node(s, n, depth)?,
            _ => p = parts::value(s, n)?,
        }
    }
}
