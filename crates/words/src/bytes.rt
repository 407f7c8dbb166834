// Each byte of the area that a plan makes, while the area is still the old one.
ghost use Rattle.std.specs.Prelude.{◌≡◌, ◌<◌, ◌^◌, length, get_or};
ghost use Rattle.wire.specs.Bytes.{le_bytes};
ghost use Rattle.rules.specs.Entries.{entry_header};
ghost use Rattle.plan.specs.Plan.{void_header, stretch_of, fields_after, after};

use crate::Edit;
use plan::sum;

// Byte k of n, the least first; 0 behind the fourth.
pub fn byte_of(n: u32, k: usize) -> u8
    ensures { result ≡ get_or (le_bytes 4 n) k 0 }
{
    n.to_le_bytes().get(k).copied().unwrap_or(0)
}

// Byte k of the header of an entry; 0 behind it.
fn header_byte(tag: u32, size: u32, k: usize) -> u8
    ensures { result ≡ get_or (entry_header tag size) k 0 }
{
    match k {
        0..=2 => byte_of(tag, k),
        3 => 8,
        _ => byte_of(size, k - 4),
    }
}

// Byte k of the header of a void that takes n bytes, if there is one; 0 behind it, as in the void.
fn void_byte(n: usize, k: usize) -> u8
    requires { n < 2 ^ 32 }
    ensures { result ≡ get_or (void_header n) k 0 }
{
    if n < 8 {
        return 0;
    }
    let size = n - 8;
    header_byte(0, size as u32, k)
}

impl Edit<'_> {
    // Byte k of the plan's stretch; 0 behind it.
    fn stretch_byte(&self, k: usize) -> u8
        ensures { result ≡ get_or (stretch_of self.now.plan self.now.data.now) k 0 }
    {
        let p = self.plan;
        if k < p.padding {
            return void_byte(p.padding, k);
        }
        let e = k - p.padding;
        if e < 8 {
            return header_byte(p.tag_id, p.data_size, e);
        }
        let d = e - 8;
        if d < self.data.len() {
            return self.data[d];
        }
        let z = d - self.data.len();
        if z < p.zeros {
            return 0;
        }
        void_byte(p.behind, z - p.zeros)
    }

    // Byte i of the area with the plan's checksum byte, alignment and used_size.
    fn field_byte(&self, i: usize) -> u8
        requires { i < length self.now.area.now }
        ensures { result ≡ get_or (fields_after self.now.plan self.now.area.now) i 0 }
    {
        match i {
            4 => self.plan.checksum,
            7 => self.plan.alignment,
            8..=11 => byte_of(self.plan.used_size, i - 8),
            _ => self.area[i],
        }
    }

    // Byte i of the area that the plan makes.
    pub fn byte_after(&self, i: usize) -> u8
        requires { i < length self.now.area.now }
        ensures { result ≡ get_or (after self.now.plan self.now.area.now self.now.data.now) i 0 }
    {
        let p = self.plan;
        if i < p.at {
            return self.field_byte(i);
        }
        let k = i - p.at;
        if k < p.padding + 8 + self.data.len() + p.zeros + sum::header_span(p.behind) {
            return self.stretch_byte(k);
        }
        self.area[i]
    }
}
