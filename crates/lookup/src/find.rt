// The lookup, in find's two forms.
ghost use Rattle.std.specs.Prelude.{◌≡◌};
ghost use Rattle.lookup.specs.Lookup.{refused_with, Lookup, LookupPart};
ghost use Rattle.lookup.specs.Search.{number_of, answer_of};

use crate::names;
use crate::seek::{Hit, Search};
use devicetree::header::Header;
use devicetree::tree;
use rules::{Extent, FindAnswer};

// Why there is no value.
#[derive(Clone, Copy)]
enum Refusal {
    // 21 FDT: the data is no tree by the grammar.
    Fdt,
    // 13 NONE: the tree has no such property.
    Nothing,
}

impl From<Refusal> for FindAnswer {
    ghost from_gives = { λ r answer. answer ≡ refused_with (number_of r) };

    fn from(r: Refusal) -> FindAnswer {
        let number = match r {
            Refusal::Fdt => tree::FDT,
            Refusal::Nothing => rules::Refusal::None.into(),
        };
        FindAnswer {
            number,
            offset: 0,
            size: 0,
            at: 0,
        }
    }
}

// The value's offset and size.
fn value(data: &[u8], path: &[u8], name: &[u8]) -> Result<Extent, Refusal>
    ensures { Lookup «data».now path.now name.now (answer_of result) }
{
    if !tree::tree(data) {
        return Err(Refusal::Fdt);
    }
    if path.len() == 0 {
        return Err(Refusal::Nothing);
    }
    let h = Header::read(data);
    let search = Search {
        blocks: h.blocks(data),
        name,
    };
    let hit = search.root(h.off_dt_struct as usize, names::below_root(path));
    match hit.ok_or(Refusal::Nothing)? {
        Hit::Found(offset, size) => Ok(Extent {
            offset: offset as u32,
            size: size as u32,
        }),
        Hit::After(_) => Err(Refusal::Nothing),
    }
}

// Where the value stands, of the first property in block order that has the name and stands under exactly the path's node names.
pub fn find(data: &[u8], path: &[u8], name: &[u8]) -> FindAnswer
    ensures { Lookup «data».now path.now name.now result }
{
    match value(data, path, name) {
        Ok(found) => FindAnswer {
            number: 0,
            offset: found.offset,
            size: found.size,
            at: 0,
        },
        Err(refusal) => refusal.into(),
    }
}

// The value itself, as a part of the caller's data; the empty part at its start where find refuses.
pub fn find_data<'a>(data: &'a [u8], path: &[u8], name: &[u8]) -> &'a [u8]
    ensures same_memory { result.ref_ptr.0 ≡ «data».entry.ref_ptr.0 }
    ensures lookup_part { LookupPart «data».now path.now name.now «data».entry.ref_ptr.1 result.now result.ref_ptr.1 }
{
    // A refusal's offset and size are 0: its part is empty.
    let found = find(data, path, name);
    let from = found.offset as usize;
    let to = from + found.size as usize;
    &data[from..to]
}
