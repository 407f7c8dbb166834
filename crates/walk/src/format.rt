// The two editions as the code tells them apart.
ghost use Rattle.std.specs.Prelude.{◌≡◌};
ghost use Rattle.walk.specs.Format.{edition_of};

use rules::Header;

// Which edition a list is of: the current one, source 001's, or edition 0.9, source 000's.
#[derive(Clone, Copy)]
pub enum Format {
    Current,
    Edition09,
}

impl Format {
    // Edition 0.9's numbers.
    pub const SIGNATURE_09: u32 = 0x006ed0ff;

    pub const SIZE_09: u8 = 16;

    // By how many bytes a current header is longer.
    pub const GROWTH: u8 = 8;

    // The edition's signature.
    pub fn signature(self) -> u32
        ensures { result ≡ (edition_of self).signature }
    {
        match self {
            Format::Current => Header::SIGNATURE,
            Format::Edition09 => Format::SIGNATURE_09,
        }
    }

    // The size of the edition's header.
    pub fn header_size(self) -> u8
        ensures { result ≡ (edition_of self).header_size }
    {
        match self {
            Format::Current => Header::SIZE,
            Format::Edition09 => Format::SIZE_09,
        }
    }
}
