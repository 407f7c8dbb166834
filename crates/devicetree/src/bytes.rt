// Numbers and zero bytes in the data.
ghost use Rattle.std.specs.Prelude.{◌≡◌, ◌+◌, ◌≤◌, length};
ghost use Rattle.devicetree.specs.Header.{cell as cell_rule, Zeros};
ghost use Rattle.devicetree.specs.Structure.{Ends};
ghost use Rattle.devicetree.specs.Decided.{Answers, Decides};

// The big-endian number of the four bytes from at on.
pub fn cell(d: &[u8], at: usize) -> u32
    requires { at + 4 ≤ length d.now }
    ensures { result ≡ cell_rule d.now at }
{
    u32::from_be_bytes([d[at], d[at + 1], d[at + 2], d[at + 3]])
}

// Every byte from a place up to another is 0. Places and no part: with parts and chunks the check of a tree took up to a fifth longer.
pub(crate) fn zeros(d: &[u8], from: usize, to: usize) -> bool
    requires { to ≤ length d.now }
    ensures { Answers (Zeros d.now from to) result }
{
    (from..to).all(|k| d[k] == 0)
}

// The first zero byte from a place on.
pub fn first_zero(block: &[u8], at: usize) -> Option<usize>
    ensures { Decides (Ends block.now at) result }
{
    (at..block.len()).find(|z| block[*z] == 0)
}
