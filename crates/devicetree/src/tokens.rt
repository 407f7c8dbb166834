// The structure block's tokens.
ghost use Rattle.std.specs.Prelude.{◌≡◌};
ghost use Rattle.devicetree.specs.Decided.{kind_of, DecidesToken};

use crate::bytes;

// What a token is, by its number.
#[derive(Clone, Copy, PartialEq, Eq)]
pub enum Kind {
    BeginNode,
    EndNode,
    Prop,
    Nop,
    End,
    Other(u32),
}

impl From<u32> for Kind {
    ghost from_gives = { λ n k. k ≡ kind_of n };

    fn from(n: u32) -> Kind {
        match n {
            1 => Kind::BeginNode,
            2 => Kind::EndNode,
            3 => Kind::Prop,
            4 => Kind::Nop,
            9 => Kind::End,
            _ => Kind::Other(n),
        }
    }
}

// The first token from a place on that is no NOP, and the place behind it.
pub fn next_token(s: &[u8], at: usize) -> Option<(Kind, usize)>
    ensures { DecidesToken s.now at result }
{
    if s.len() < at {
        return None;
    }
    // A loop over chunks made checks and lookups about a tenth slower.
    let mut p = at;
    while 4 <= s.len() - p {
        let kind = Kind::from(bytes::cell(s, p));
        p += 4;
        if kind != Kind::Nop {
            return Some((kind, p));
        }
    }
    None
}
