// Names: of nodes and properties in the data, and of a path.
ghost use Rattle.std.specs.Prelude.{◌<◌, length};
ghost use Rattle.devicetree.specs.Decided.{Answers, Decides};
ghost use Rattle.lookup.specs.Search.{Named, PartEnd, Enters, SameNames};

use devicetree::bytes;

// The byte before each name of a path.
const SLASH: u8 = 0x2f;

// The name that starts at a place of its block is w.
pub(crate) fn named(block: &[u8], at: usize, w: &[u8]) -> bool
    ensures { Answers (Named block.now at w.now) result }
{
    let Some(z) = bytes::first_zero(block, at) else {
        return false;
    };
    &block[at..z] == w
}

// Where the part behind a path's first byte ends.
fn part_end(path: &[u8]) -> usize
    requires { 0 < length path.now }
    ensures { PartEnd path.now result }
{
    match path[1..].iter().position(|b| *b == SLASH) {
        Some(letters) => 1 + letters,
        None => path.len(),
    }
}

// Where the path's first name ends, if it is that of the node whose name starts at a place.
pub(crate) fn enters(s: &[u8], at: usize, path: &[u8]) -> Option<usize>
    ensures { Decides (Enters s.now at path.now) result }
{
    if *path.first()? != SLASH {
        return None;
    }
    let e = part_end(path);
    if e == 1 {
        return None;
    }
    named(s, at, &path[1..e]).then_some(e)
}

// What is left of a path below the root: nothing of `/`, which is the root's, and all of any other.
pub(crate) fn below_root(path: &[u8]) -> &[u8]
    requires { 0 < length path.now }
    ensures { SameNames path.now result.now }
{
    if path == [SLASH].as_slice() {
        &path[1..]
    } else {
        path
    }
}
