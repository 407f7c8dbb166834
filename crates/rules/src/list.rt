// A list as it lies in its bytes.
ghost use Rattle.std.specs.Prelude.{◌≡◌, ◌≤◌, length};
ghost use Rattle.rules.specs.Header.{header_of};

use crate::Header;

// A list's bytes, with the header that they start with. Its used bytes lie within them.
#[derive(Clone, Copy)]
pub struct List<'a> {
    pub bytes: &'a [u8],
    pub header: Header,
    ghost read: { header ≡ header_of bytes.now },
    ghost within: { header.used_size ≤ length bytes.now },
}
