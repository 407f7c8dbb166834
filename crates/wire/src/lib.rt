// Numbers, exclusive or, sums, zeros and copies on slices of bytes. Knows nothing of transfer lists.
#![tactic(auto)]

ghost use Rattle.std.specs.Prelude.{◌≡◌, ℕ, ◌+◌, ◌*◌, ◌%◌, ◌^◌, ◌<◌, ◌≤◌, length, replicate, slice_index};
ghost use Rattle.std.specs.List.{concat};
ghost use Rattle.wire.specs.Bytes.{field, le_bytes, xor, splice, sum};

// A little-endian number of so many bytes.
pub trait Number {
    ghost size: { ℕ };

    ghost value: { Self → ℕ };

    // The number of the bytes from at on.
    fn read(s: &[u8], at: usize) -> Self
        requires { at + size ≤ length s.now }
        ensures { value result ≡ field s.now at size };

    // The number's bytes, the least first, from at on.
    fn write(self, a: &mut [u8], at: usize)
        requires { at + size ≤ length a.old }
        ensures { a.new ≡ splice a.old at (le_bytes size (value self)) };

    // The exclusive or of its bytes, that is the number folded into a byte: the exclusive or of its halves, and so on down to a byte.
    fn fold(self) -> u8
        ensures { result ≡ xor (le_bytes size (value self)) };
}

impl Number for u32 {
    ghost size = { 4 };

    ghost value = { λ n. n };

    fn read(s: &[u8], at: usize) -> u32 {
        u32::from_le_bytes([s[at], s[at + 1], s[at + 2], s[at + 3]])
    }

    fn write(self, a: &mut [u8], at: usize) {
        let bytes = self.to_le_bytes();
        a[at..at + 4].copy_from_slice(&bytes);
    }

    fn fold(self) -> u8 {
        let half = (self % 0x1_0000) ^ (self / 0x1_0000);
        (half % 256) as u8 ^ (half / 256 % 256) as u8
    }
}

impl Number for u64 {
    ghost size = { 8 };

    ghost value = { λ n. n };

    fn read(s: &[u8], at: usize) -> u64 {
        u64::from(u32::read(s, at)) + 0x1_0000_0000 * u64::from(u32::read(s, at + 4))
    }

    fn write(self, a: &mut [u8], at: usize) {
        let bytes = self.to_le_bytes();
        a[at..at + 8].copy_from_slice(&bytes);
    }

    fn fold(self) -> u8 {
        let half = (self % 0x1_0000_0000) as u32 ^ (self / 0x1_0000_0000) as u32;
        half.fold()
    }
}

// A word, that is eight bytes as a number.
fn word(bytes: &[u8; 8]) -> u64
    ensures { le_bytes 8 result ≡ bytes.now }
{
    u64::from_le_bytes(*bytes)
}

// A word that folds to the exclusive or of all words, whose number is a multiple of four. Each turn takes a word of each quarter: this loop
// takes the same time wherever the linker puts it, which the loop over single bytes does not (decision 64).
fn xor_quarters(words: &[[u8; 8]]) -> u64
    requires { length words.now % 4 ≡ 0 }
    ensures { xor (le_bytes 8 result) ≡ xor (concat words.now) }
{
    let n = words.len() / 4;
    let (first, others) = words.split_at(n);
    let (second, others) = others.split_at(n);
    let (third, fourth) = others.split_at(n);
    let mut x: u64 = 0;
    for i in 0..n {
        let upper = word(&third[i]) ^ word(&fourth[i]);
        x ^= word(&first[i]) ^ (word(&second[i]) ^ upper);
    }
    x
}

// A word that folds to the exclusive or of all words, one by one.
fn xor_stream(words: &[[u8; 8]]) -> u64
    ensures { xor (le_bytes 8 result) ≡ xor (concat words.now) }
{
    let mut x: u64 = 0;
    for bytes in words {
        x ^= word(bytes);
    }
    x
}

// A word that folds to the exclusive or of all words: most in quarters of an even number of words, so that all four start alike modulo 16
// bytes (decision 65); the last, fewer than eight, one by one.
fn xor_words(words: &[[u8; 8]]) -> u64
    ensures { xor (le_bytes 8 result) ≡ xor (concat words.now) }
{
    let (quarters, others) = words.split_at(words.len() / 8 * 8);
    xor_quarters(quarters) ^ xor_stream(others)
}

// The exclusive or of the bytes, one by one.
pub fn xor_bytes(part: &[u8]) -> u8
    ensures { result ≡ xor part.now }
{
    let mut x: u8 = 0;
    for byte in part {
        x ^= *byte;
    }
    x
}

// The exclusive or of the bytes: eight bytes at a time, single bytes only where fewer than eight are left.
pub fn xor(part: &[u8]) -> u8
    ensures { result ≡ xor part.now }
{
    let (words, others) = part.as_chunks::<8>();
    xor_words(words).fold() ^ xor_bytes(others)
}

// Zero in the n bytes from at on. The whole slice with a place in it and no part: callers reckon with all bytes, as `splice` does.
pub fn zero_part(a: &mut [u8], at: usize, n: usize)
    requires { at + n ≤ length a.old }
    ensures { a.new ≡ splice a.old at (replicate n 0) }
{
    // The compiler makes one call of memset of this loop; of `fill` it makes a call and a store behind it.
    for byte in &mut a[at..at + n] {
        *byte = 0;
    }
}

// The bytes of src from at on. The whole slice with a place in it, for the same reason.
pub fn copy_part(a: &mut [u8], at: usize, src: &[u8])
    requires { at + length src.now ≤ length a.old }
    ensures { a.new ≡ splice a.old at src.now }
{
    // Byte by byte: the compiler makes no call of the C library of this loop; `copy_from_slice` is one of memmove.
    let part = &mut a[at..at + src.len()];
    for i in 0..src.len() {
        part[i] = src[i];
    }
}

// The byte at a place, 0 behind the end.
fn byte_or_zero(s: &[u8], at: usize) -> u8
    ensures { result ≡ slice_index s.now at }
{
    s.get(at).copied().unwrap_or(0)
}

// The little-endian number of the four bytes from at on, of which those behind the end count 0.
pub fn read4_or_zeros(s: &[u8], at: usize) -> u32
    requires { at < 2 ^ 32 }
    ensures { result ≡ field s.now at 4 }
{
    if at + 4 <= s.len() {
        return u32::read(s, at);
    }
    u32::from_le_bytes([
        byte_or_zero(s, at),
        byte_or_zero(s, at + 1),
        byte_or_zero(s, at + 2),
        byte_or_zero(s, at + 3),
    ])
}

// The sum of the bytes modulo 256.
pub fn sum(part: &[u8]) -> u8
    ensures { result ≡ sum part.now % 256 }
{
    let mut x: u8 = 0;
    for byte in part {
        x = x.wrapping_add(*byte);
    }
    x
}
