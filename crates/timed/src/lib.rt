// The checksum's exclusive or by itself, for make bench to time: by words, as the library does it, and by single bytes, as it did it before.
// Not shipped.
#![tactic(auto)]

ghost use Rattle.std.specs.Prelude.{◌≡◌, ◌-◌, length, take, drop};
ghost use Rattle.wire.specs.Bytes.{xor};

// The bytes from at on; behind the end there are none.
fn bytes_from(s: &[u8], at: usize) -> &[u8]
    ensures { result.now ≡ take (length s.now - at) (drop at s.now) }
{
    &s[at.min(s.len())..]
}

// By words, from at on.
#[unsafe(no_mangle)]
pub extern "C" fn xor_by_words(s: &[u8], at: usize) -> u8
    ensures { result ≡ xor (take (length s.now - at) (drop at s.now)) }
{
    wire::xor(bytes_from(s, at))
}

// By single bytes, from at on.
#[unsafe(no_mangle)]
pub extern "C" fn xor_by_bytes(s: &[u8], at: usize) -> u8
    ensures { result ≡ xor (take (length s.now - at) (drop at s.now)) }
{
    wire::xor_bytes(bytes_from(s, at))
}
