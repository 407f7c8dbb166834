// What stands in a certificate's 56 bytes: its fields, the reading, the gate, refusals 19 and 20. Nothing here knows a list.
ghost use Rattle.std.specs.Prelude.{◌≡◌, ◌≤◌, length, ltb};
ghost use Rattle.std.specs.Float.{binary64};
ghost use Rattle.std.specs.Float.Ieee.{nan_bits};
ghost use Rattle.rules.specs.Tags.{certificate_size};
ghost use Rattle.rules.specs.Certificate.{
  certificate_of,
  float as float_rule,
  gauge_reading,
  calibration_of,
  reading_of,
  gate_of,
  refuses_identity,
  unknown_kind,
  max_counts,
  not_finite,
  not_above_zero,
  unused_not_zero,
  low_exceeds_high,
  refuses_contents,
  passes as passes_rule,
  judged,
  certified as certified_rule,
};

use crate::kind::Kind;
use rules::certificate::{Calibration, Certificate, Gate, Uncertified, Verdict};
use wire::Number;

// The pattern of infinity: the exponent's bits are all ones, and those below all zeros.
const INFINITY: u64 = 0x7ff0_0000_0000_0000;

// The fields of the certificate that d starts with.
fn read_certificate(d: &[u8]) -> Certificate
    requires { certificate_size ≤ length d.now }
    ensures { result ≡ certificate_of d.now }
{
    Certificate {
        serial: u64::read(d, 0),
        test: u64::read(d, 8),
        kind: u32::read(d, 16),
        counts: u32::read(d, 20),
        gain: u64::read(d, 24),
        offset: u64::read(d, 32),
        low: u64::read(d, 40),
        high: u64::read(d, 48),
    }
}

// A pattern is that of no number: without its sign it is above that of infinity.
fn is_no_number(bits: u64) -> bool
    ensures { result ≡ nan_bits binary64 bits }
{
    INFINITY < bits % 0x8000_0000_0000_0000
}

// The float of a pattern. f64::from_bits is not defined at the patterns of no number; there is one such value, which 0.0 / 0.0 makes.
fn float(bits: u64) -> f64
    ensures { result ≡ float_rule bits }
{
    if is_no_number(bits) {
        return 0.0 / 0.0;
    }
    f64::from_bits(bits)
}

// The gauge's gain and offset.
fn calibration(c: Certificate) -> Calibration
    ensures { result ≡ calibration_of c }
{
    Calibration {
        gain: float(c.gain),
        offset: float(c.offset),
    }
}

// The product, rounded, and then the sum, rounded.
fn reading(k: Calibration, counts: u32) -> f64
    ensures { result ≡ gauge_reading k counts }
{
    k.gain * (counts as f64) + k.offset
}

// The reading of a certificate.
fn reading_of(c: Certificate) -> f64
    ensures { result ≡ reading_of c }
{
    reading(calibration(c), c.counts)
}

// The gate of a certificate whose kind is known; an unknown one, which refusal 20 turns away, counts as a floor.
fn gate_of(c: Certificate) -> Gate
    ensures { result ≡ gate_of c }
{
    let low = float(c.low);
    let high = float(c.high);
    match Kind::try_from(c.kind).unwrap_or(Kind::Floor) {
        Kind::Band => Gate::Band { low, high },
        Kind::Ceiling => Gate::Ceiling { high },
        Kind::Floor => Gate::Floor { low },
    }
}

// Refusal 19.
fn refuses_identity(c: Certificate, serial: u64, test: u64) -> bool
    ensures { result ≡ refuses_identity serial test c }
{
    !((c.serial == serial) & (c.test == test))
}

// The kind is not one of the three.
fn unknown_kind(kind: u32) -> bool
    ensures { result ≡ unknown_kind kind }
{
    Kind::try_from(kind).is_err()
}

// Counts exceed 2^24.
fn counts_exceed(counts: u32) -> bool
    ensures { result ≡ ltb max_counts counts }
{
    Certificate::MAX_COUNTS < counts
}

// Infinite or no number; the language's f64 has no test for it. Neither lies strictly between the infinities.
fn not_finite(x: f64) -> bool
    ensures { result ≡ not_finite x }
{
    let infinity = f64::from_bits(INFINITY);
    !((-infinity < x) & (x < infinity))
}

// Not above zero. Neither +0.0 nor -0.0 is.
fn not_above_zero(x: f64) -> bool
    ensures { result ≡ not_above_zero x }
{
    !(0.0 < x)
}

// A limit that the gate does not use is not eight zero bytes.
fn unused_not_zero(c: Certificate) -> bool
    ensures { result ≡ unused_not_zero c }
{
    match Kind::try_from(c.kind) {
        Ok(Kind::Ceiling) => c.low != 0,
        Ok(Kind::Floor) => c.high != 0,
        _ => false,
    }
}

// A band's low exceeds its high.
fn low_exceeds_high(c: Certificate) -> bool
    ensures { result ≡ low_exceeds_high c }
{
    match Kind::try_from(c.kind) {
        Ok(Kind::Band) => float(c.high) < float(c.low),
        _ => false,
    }
}

// Refusal 20.
fn refuses_contents(c: Certificate) -> bool
    ensures { result ≡ refuses_contents c }
{
    unknown_kind(c.kind)
        | counts_exceed(c.counts)
        | not_finite(float(c.gain))
        | not_finite(float(c.offset))
        | not_finite(float(c.low))
        | not_finite(float(c.high))
        | not_finite(reading_of(c))
        | not_above_zero(float(c.gain))
        | unused_not_zero(c)
        | low_exceeds_high(c)
}

// Pass or fail, limits included in the pass.
fn passes(g: Gate, x: f64) -> bool
    ensures { result ≡ passes_rule g x }
{
    match g {
        Gate::Band { low, high } => (low <= x) & (x <= high),
        Gate::Ceiling { high } => x <= high,
        Gate::Floor { low } => low <= x,
    }
}

// Refusal 20, or the reading with pass or fail.
fn judge(c: Certificate) -> Result<Verdict, Uncertified>
    ensures { result ≡ judged c }
{
    if refuses_contents(c) {
        return Err(Uncertified::Unsound);
    }
    let reading = reading_of(c);
    let pass = passes(gate_of(c), reading);
    Ok(Verdict { reading, pass })
}

// Refusals 19 and 20 of the certificate that d starts with, or the reading with pass or fail.
pub(crate) fn certified(d: &[u8], serial: u64, test: u64) -> Result<Verdict, Uncertified>
    requires { certificate_size ≤ length d.now }
    ensures { result ≡ certified_rule serial test (certificate_of d.now) }
{
    let c = read_certificate(d);
    if refuses_identity(c, serial, test) {
        return Err(Uncertified::Another);
    }
    judge(c)
}
