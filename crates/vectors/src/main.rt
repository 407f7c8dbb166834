// Runs the paper's examples A to N, and examples of edition 0.9, of the event log's length, of tidying, of the checksum's exclusive or, of
// the test certificate, of the device tree, of alignments up to 21, of bad entries and of the journal, on real bytes and prints what the
// functions answer and leave; the file stdout holds what the papers' rules give. No buffer is over 64 KiB, so that I's 65,537 bytes are left out.
// A line: the example, the call, the answer's numbers, of a reading its 64 bits, the place of a bad entry, which is 0 where there is none, and
// the bytes: of a find the data, of create, an edit and a certificate the whole area or target, of two large areas the first 24 bytes; of the
// exclusive or the start, and the results over 0, 1, 2 .. bytes from there; of a journalled edit, a step and a recovery the area and, behind a
// stroke, the journal, and of a step whether it has ended.
#![tactic(auto)]

use edit::edits;
use journalled::{forms, starts};
use rules::certificate::{Certificate, CertifiedAnswer, Gate};
use rules::{CheckAnswer, DoneAnswer, FindAnswer, Refusal};
use std::io::{BufWriter, Write};
use std::{fmt, io};
use steps::{Stepped, Steps, advance, begin, whole};
use walk::format::Format::{self, Current, Edition09};

// Why the text ends early: the output fails, or a call is refused that only makes an example's list.
#[derive(Clone, Copy)]
enum Stop {
    Output(io::Error),
    Refused(Refusal),
}

// What `main` says of it is what the error itself says.
impl fmt::Debug for Stop {
    fn fmt<W: fmt::Write>(&self, f: &mut fmt::Formatter<W>) -> fmt::Result {
        match self {
            Stop::Output(e) => write!(f, "{e:?}"),
            Stop::Refused(r) => write!(f, "{r:?}"),
        }
    }
}

impl From<io::Error> for Stop {
    fn from(e: io::Error) -> Stop {
        Stop::Output(e)
    }
}

impl From<Refusal> for Stop {
    fn from(r: Refusal) -> Stop {
        Stop::Refused(r)
    }
}

type Shown = Result<(), Stop>;

// Bytes in hex, a space before each.
#[derive(Clone, Copy)]
struct Hex<'a>(&'a [u8]);

impl fmt::Display for Hex<'_> {
    fn fmt<W: fmt::Write>(&self, f: &mut fmt::Formatter<W>) -> fmt::Result {
        for byte in self.0 {
            write!(f, " {byte:02x}")?;
        }
        Ok(())
    }
}

// An answer's numbers.
#[derive(Clone, Copy)]
struct Numbers<A>(A);

impl fmt::Display for Numbers<CheckAnswer> {
    fn fmt<W: fmt::Write>(&self, f: &mut fmt::Formatter<W>) -> fmt::Result {
        let a = self.0;
        write!(f, "{} {} {} {} ", a.number, a.version, a.used, a.total)?;
        write!(f, "{} {} {} {}", a.alignment, a.live, a.voids, a.at)
    }
}

impl fmt::Display for Numbers<FindAnswer> {
    fn fmt<W: fmt::Write>(&self, f: &mut fmt::Formatter<W>) -> fmt::Result {
        let a = self.0;
        write!(f, "{} {} {} {}", a.number, a.offset, a.size, a.at)
    }
}

impl fmt::Display for Numbers<DoneAnswer> {
    fn fmt<W: fmt::Write>(&self, f: &mut fmt::Formatter<W>) -> fmt::Result {
        let a = self.0;
        write!(f, "{} {} {}", a.number, a.value, a.at)
    }
}

// Its reading is shown as its 64 bits.
impl fmt::Display for Numbers<CertifiedAnswer> {
    fn fmt<W: fmt::Write>(&self, f: &mut fmt::Formatter<W>) -> fmt::Result {
        let a = self.0;
        write!(
            f,
            "{} {} {:016x} {}",
            a.number,
            a.pass,
            bits(a.reading),
            a.at
        )
    }
}

impl fmt::Display for Numbers<Stepped> {
    fn fmt<W: fmt::Write>(&self, f: &mut fmt::Formatter<W>) -> fmt::Result {
        write!(f, "{} {}", self.0.ended, Numbers(self.0.done))
    }
}

// Bytes from at on, if there is room.
fn put_part(d: &mut [u8], at: usize, part: &[u8]) {
    if let Some(room) = d.get_mut(at..).and_then(|rest| rest.get_mut(..part.len())) {
        room.copy_from_slice(part);
    }
}

fn show_check(
    out: &mut impl Write,
    example: &str,
    format: Format,
    area: &[u8],
    base: u64,
) -> Shown {
    let a = match format {
        Current => transfer_list::tl_check(area, base),
        Edition09 => transfer_list::tl09_check(area, base),
    };
    writeln!(out, "{example} check {}", Numbers(a))?;
    Ok(())
}

fn show_found(out: &mut impl Write, example: &str, a: FindAnswer, data: &[u8]) -> Shown {
    writeln!(out, "{example} find {}{}", Numbers(a), Hex(data))?;
    Ok(())
}

fn show_find(
    out: &mut impl Write,
    example: &str,
    format: Format,
    area: &[u8],
    base: u64,
    tag: u32,
    n: u64,
) -> Shown {
    let (found, data) = match format {
        Current => (
            transfer_list::tl_find(area, base, tag, n),
            transfer_list::tl_find_data(area, base, tag, n),
        ),
        Edition09 => (
            transfer_list::tl09_find(area, base, tag, n),
            transfer_list::tl09_find_data(area, base, tag, n),
        ),
    };
    show_found(out, example, found, data)
}

fn show_done(
    out: &mut impl Write,
    example: &str,
    call: &str,
    done: Result<u32, Refusal>,
    bytes: &[u8],
) -> Shown {
    let a = DoneAnswer::from(done);
    writeln!(out, "{example} {call} {}{}", Numbers(a), Hex(bytes))?;
    Ok(())
}

// A new list of 64 bytes; tag 1 with aa bb cc; that entry voided; tag 2 without data in its place.
fn examples_a_to_d(out: &mut impl Write) -> Shown {
    let mut area = [0xffu8; 64];
    let made = create::create(&mut area, 0x1000, true);
    show_done(out, "A", "create", made, &area)?;
    show_check(out, "A", Current, &area, 0x1000)?;
    let added = edits::add(&mut area, 0x1000, 1, b"\xaa\xbb\xcc", false);
    show_done(out, "B", "add", added, &area)?;
    show_check(out, "B", Current, &area, 0x1000)?;
    show_find(out, "B", Current, &area, 0x1000, 1, 0)?;
    show_find(out, "B", Current, &area, 0x1000, 1, 1)?;
    show_find(out, "B", Current, &area, 0x1000, 0, 0)?;
    let voided = edits::void(&mut area, 0x1000, 1, 0);
    show_done(out, "C", "void", voided, &area)?;
    show_check(out, "C", Current, &area, 0x1000)?;
    show_find(out, "C", Current, &area, 0x1000, 1, 0)?;
    let reused = edits::add(&mut area, 0x1000, 2, b"", true);
    show_done(out, "D", "add", reused, &area)?;
    show_check(out, "D", Current, &area, 0x1000)?;
    show_find(out, "D", Current, &area, 0x1000, 2, 0)
}

// Data into a list with a void of 16 and 16 bytes of room behind it.
fn example_e(out: &mut impl Write, data: &[u8]) -> Shown {
    let mut area = [0u8; 64];
    create::create(&mut area, 0x1000, true)?;
    edits::add(&mut area, 0x1000, 1, b"0123456789abcdef", false)?;
    edits::void(&mut area, 0x1000, 1, 0)?;
    let added = edits::add(&mut area, 0x1000, 2, data, true);
    show_done(out, "E", "add", added, &area)
}

// total - used is 8, then 0.
fn example_f(out: &mut impl Write) -> Shown {
    let mut area = [0u8; 32];
    create::create(&mut area, 0x1000, true)?;
    let one = edits::add(&mut area, 0x1000, 2, b"\x07", false);
    show_done(out, "F", "add", one, &area)?;
    let none = edits::add(&mut area, 0x1000, 2, b"", false);
    show_done(out, "F", "add", none, &area)?;
    let more = edits::add(&mut area, 0x1000, 2, b"", false);
    show_done(out, "F", "add", more, &area)
}

// Four bytes aligned to 2^4, to 2^6, and to 2^6 with total 64.
fn example_g(out: &mut impl Write) -> Shown {
    let mut area = [0u8; 80];
    create::create(&mut area, 0x1000, true)?;
    let aligned = edits::add_aligned(&mut area, 0x1000, 4, b"\x01\x02\x03\x04", 4);
    show_done(out, "G", "add aligned", aligned, &area)?;
    let mut small = [0u8; 64];
    create::create(&mut small, 0x1000, true)?;
    let refused = edits::add_aligned(&mut small, 0x1000, 4, b"\x01\x02\x03\x04", 6);
    show_done(out, "G", "add aligned", refused, &small)
}

// The list of exponent 6, and its relocations.
fn example_h(out: &mut impl Write) -> Shown {
    let mut area = [0u8; 80];
    create::create(&mut area, 0x1000, true)?;
    let aligned = edits::add_aligned(&mut area, 0x1000, 4, b"\x01\x02\x03\x04", 6);
    show_done(out, "G", "add aligned", aligned, &area)?;
    show_check(out, "G", Current, &area, 0x1000)?;
    show_find(out, "G", Current, &area, 0x1000, 4, 0)?;
    relocations(out, &area)
}

// To 200, 128 and 127 bytes.
fn relocations(out: &mut impl Write, area: &[u8]) -> Shown {
    let mut large = [0xffu8; 200];
    let moved = relocate::relocate(area, 0x1000, &mut large, 0x2008);
    show_done(out, "H", "relocate", moved, &large)?;
    let mut middle = [0xffu8; 128];
    let fitted = relocate::relocate(area, 0x1000, &mut middle, 0x2008);
    show_done(out, "H", "relocate", fitted, &middle)?;
    let mut small = [0xffu8; 127];
    let refused = relocate::relocate(area, 0x1000, &mut small, 0x2008);
    show_done(out, "H", "relocate", refused, &small)
}

// Only the first 24 bytes are shown.
fn show_first(
    out: &mut impl Write,
    example: &str,
    call: &str,
    done: Result<u32, Refusal>,
    bytes: &[u8],
) -> Shown {
    show_done(out, example, call, done, bytes.get(..24).unwrap_or(bytes))
}

// Create with 24, 25 and 65,536 bytes. Of the large one the first 24 bytes are shown.
fn example_i(out: &mut impl Write) -> Shown {
    let mut short = [0xffu8; 24];
    let refused = create::create(&mut short, 0x1000, true);
    show_done(out, "I", "create", refused, &short)?;
    let mut least = [0xffu8; 25];
    let made = create::create(&mut least, 0x1000, true);
    show_done(out, "I", "create", made, &least)?;
    let mut most = [0xffu8; 65536];
    let full = create::create(&mut most, 0x1000, true);
    show_first(out, "I", "create", full, &most)
}

// A new list without a checksum, with another alignment field.
fn example_j(out: &mut impl Write, example: &str, alignment: u8) -> Shown {
    let mut area = [0u8; 64];
    create::create(&mut area, 0x1000, false)?;
    area[7] = alignment;
    show_check(out, example, Current, &area, 0x1000)
}

// An entry whose data_size is 0xffffffff.
fn example_k(out: &mut impl Write) -> Shown {
    let mut area = [0u8; 64];
    create::create(&mut area, 0x1000, false)?;
    edits::add(&mut area, 0x1000, 1, b"\xaa\xbb\xcc", false)?;
    put_part(&mut area, 28, &u32::MAX.to_le_bytes());
    show_check(out, "K", Current, &area, 0x1000)
}

// Used 24: no entries.
fn example_m(out: &mut impl Write) -> Shown {
    let mut area = [0u8; 64];
    create::create(&mut area, 0x1000, true)?;
    show_check(out, "M", Current, &area, 0x1000)
}

// Version 2 with a bad checksum: add says READONLY, check says CHECKSUM.
fn example_n(out: &mut impl Write) -> Shown {
    let mut area = [0u8; 64];
    create::create(&mut area, 0x1000, true)?;
    area[5] = 2;
    let refused = edits::add(&mut area, 0x1000, 1, b"\xaa\xbb\xcc", false);
    show_done(out, "N", "add", refused, &area)?;
    show_check(out, "N", Current, &area, 0x1000)
}

// ---- Edition 0.9. Source 000 has no examples, so these are our own.

// The whole target is shown.
fn show_convert(
    out: &mut impl Write,
    example: &str,
    area: &[u8],
    base: u64,
    target: &mut [u8],
    target_base: u64,
) -> Shown {
    let converted = convert::convert(area, base, target, target_base);
    show_done(out, example, "convert", converted, target)
}

// A new list of 16 bytes; tag 1 with aa bb cc; a void of 8; version 2 with a header of 20 bytes; what is refused.
fn examples_09(out: &mut impl Write) -> Shown {
    let new = b"\xff\xd0\x6e\0\x71\x01\x10\x03\x10\0\0\0\x10\0\0\0";
    let entry =
        b"\xff\xd0\x6e\0\xce\x01\x10\x03\x20\0\0\0\x20\0\0\0\x01\0\0\x08\x03\0\0\0\xaa\xbb\xcc\0\0\0\0\0";
    let void =
        b"\xff\xd0\x6e\0\xa1\x01\x10\x03\x20\0\0\0\x20\0\0\0\0\0\0\x08\x08\0\0\0\0\0\0\0\0\0\0\0";
    let later =
        b"\xff\xd0\x6e\0\xe3\x02\x14\x03\x28\0\0\0\x28\0\0\0\0\0\0\0\0\0\0\0\x01\0\0\x08\x03\0\0\0\xaa\xbb\xcc\0\0\0\0\0";
    show_check(out, "09 new", Edition09, new, 0x1000)?;
    show_check(
        out,
        "09 new of 15",
        Edition09,
        b"\xff\xd0\x6e\0\x71\x01\x10\x03\x10\0\0\0\x10\0\0",
        0x1000,
    )?;
    show_check(out, "09 entry", Edition09, entry, 0x1000)?;
    show_find(out, "09 entry", Edition09, entry, 0x1000, 1, 0)?;
    show_find(out, "09 entry", Edition09, entry, 0x1000, 1, 1)?;
    show_find(out, "09 entry", Edition09, entry, 0x1000, 0, 0)?;
    show_check(out, "09 void", Edition09, void, 0x1000)?;
    show_check(out, "09 later version", Edition09, later, 0x1000)?;
    show_find(out, "09 later version", Edition09, later, 0x1000, 1, 0)?;
    show_check(
        out,
        "09 sum negated",
        Edition09,
        b"\xff\xd0\x6e\0\x32\x01\x10\x03\x20\0\0\0\x20\0\0\0\x01\0\0\x08\x03\0\0\0\xaa\xbb\xcc\0\0\0\0\0",
        0x1000,
    )?;
    show_check(
        out,
        "09 sum with byte 4",
        Edition09,
        b"\xff\xd0\x6e\0\x9c\x01\x10\x03\x20\0\0\0\x20\0\0\0\x01\0\0\x08\x03\0\0\0\xaa\xbb\xcc\0\0\0\0\0",
        0x1000,
    )?;
    show_check(out, "09 odd address", Edition09, entry, 0x1004)?;
    show_check(out, "09 as current", Current, entry, 0x1000)?;
    show_convert(out, "09 new", new, 0, &mut [0xff; 64], 0x1000)?;
    show_convert(out, "09 entry", entry, 0, &mut [0xff; 64], 0x1000)?;
    show_convert(out, "09 void", void, 0, &mut [0xff; 64], 0x1000)?;
    show_convert(
        out,
        "09 beyond 2^48",
        entry,
        0,
        &mut [0xff; 64],
        0xffffffffffc1,
    )?;
    show_convert(out, "09 later version", later, 0, &mut [0xff; 64], 0x1000)
}

// A void that has data and tag 4 whose padding is not 0, converted from base 0 with alignment 3, 6 and 12 and from 0x1040.
fn conversions_09(out: &mut impl Write) -> Shown {
    let three =
        b"\xff\xd0\x6e\0\x7c\x01\x10\x03\x30\0\0\0\x30\0\0\0\0\0\0\x08\x08\0\0\0old data\x04\0\0\x08\x04\0\0\0\x01\x02\x03\x04pads";
    let six =
        b"\xff\xd0\x6e\0\x7f\x01\x10\x06\x30\0\0\0\x30\0\0\0\0\0\0\x08\x08\0\0\0old data\x04\0\0\x08\x04\0\0\0\x01\x02\x03\x04pads";
    let twelve =
        b"\xff\xd0\x6e\0\x85\x01\x10\x0c\x30\0\0\0\x30\0\0\0\0\0\0\x08\x08\0\0\0old data\x04\0\0\x08\x04\0\0\0\x01\x02\x03\x04pads";
    show_convert(out, "09 alignment 3", three, 0, &mut [0xff; 64], 0xff0)?;
    show_convert(out, "09 alignment 6", six, 0, &mut [0xff; 64], 0xff0)?;
    show_convert(out, "09 alignment 12", twelve, 0, &mut [0xff; 64], 0xff0)?;
    show_convert(
        out,
        "09 alignment 12 at 0x1040",
        twelve,
        0x1040,
        &mut [0xff; 64],
        0x1030,
    )?;
    show_convert(out, "09 no room", twelve, 0, &mut [0xff; 63], 0xff0)
}

// ---- The event log's length (document 02, request 2). The examples are our own.

// Data by either add, each into a new list.
fn show_adds(out: &mut impl Write, example: &str, area: &mut [u8], tag: u32, data: &[u8]) -> Shown {
    create::create(area, 0x1000, true)?;
    let added = edits::add(area, 0x1000, tag, data, false);
    show_done(out, example, "add", added, area)?;
    create::create(area, 0x1000, true)?;
    let aligned = edits::add_aligned(area, 0x1000, tag, data, 4);
    show_done(out, example, "add aligned", aligned, area)
}

// Lists of 48 bytes.
fn event_log(out: &mut impl Write, example: &str, data: &[u8]) -> Shown {
    let mut area = [0u8; 48];
    show_adds(out, example, &mut area, 5, data)
}

// A list made elsewhere whose event log has 3 bytes is read.
fn short_event_log(out: &mut impl Write) -> Shown {
    let list =
        b"\x0b\xb1\x0f\x4a\xea\x01\x18\x03\x28\0\0\0\x28\0\0\0\x01\0\0\0\0\0\0\0\x05\0\0\x08\x03\0\0\0\x01\x02\x03\0\0\0\0\0";
    show_check(out, "short event log", Current, list, 0x1000)?;
    show_find(out, "short event log", Current, list, 0x1000, 5, 0)
}

// ---- Tidying (document 02, request 3). The examples are our own.

// Tag 1 with 8 bytes, and without data.
fn add_two(area: &mut [u8]) -> Result<(), Refusal> {
    edits::add(area, 0x1000, 1, b"old data", false)?;
    edits::add(area, 0x1000, 1, b"", false)?;
    Ok(())
}

// These two, tag 0x200 with three bytes, these two, tag 1 without data.
fn make_six(area: &mut [u8]) -> Result<(), Refusal> {
    create::create(area, 0x1000, true)?;
    add_two(area)?;
    edits::add(area, 0x1000, 0x200, b"\xaa\xbb\xcc", false)?;
    add_two(area)?;
    edits::add(area, 0x1000, 1, b"", false)?;
    Ok(())
}

// The six with other tags for 1, set by hand, and so is the checksum: with tag 0, voids that still have their data. A byte of padding and
// one behind the used bytes are not 0. Tidied twice.
fn tidy_six(out: &mut impl Write, example: &str, tags: [u8; 5]) -> Shown {
    let mut area = [0u8; 104];
    make_six(&mut area)?;
    let [first, second, fourth, fifth, sixth] = tags;
    area[24] = first;
    area[40] = second;
    area[64] = fourth;
    area[80] = fifth;
    area[88] = sixth;
    area[63] = 0x5a;
    area[103] = 0xee;
    area[4] = 0x6a ^ wire::xor(&tags);
    show_check(out, example, Current, &area, 0x1000)?;
    let once = tidy::tidy(&mut area, 0x1000);
    show_done(out, example, "tidy", once, &area)?;
    let twice = tidy::tidy(&mut area, 0x1000);
    show_done(out, example, "tidy", twice, &area)?;
    show_check(out, example, Current, &area, 0x1000)
}

// Three voids, two of them with data: all are given back.
fn tidy_only_voids(out: &mut impl Write) -> Shown {
    let mut area = [0u8; 72];
    create::create(&mut area, 0x1000, true)?;
    add_two(&mut area)?;
    edits::add(&mut area, 0x1000, 1, b"old data", false)?;
    area[24] = 0;
    area[40] = 0;
    area[48] = 0;
    area[4] = 0xe4;
    show_check(out, "only voids", Current, &area, 0x1000)?;
    let tidied = tidy::tidy(&mut area, 0x1000);
    show_done(out, "only voids", "tidy", tidied, &area)?;
    show_check(out, "only voids", Current, &area, 0x1000)
}

// Two voids before an entry, without a checksum. Other flags and the reserved word are not 0.
fn tidy_without_checksum(out: &mut impl Write) -> Shown {
    let mut area = [0u8; 64];
    create::create(&mut area, 0x1000, false)?;
    add_two(&mut area)?;
    edits::add(&mut area, 0x1000, 2, b"", false)?;
    area[24] = 0;
    area[40] = 0;
    area[16] = 0xfe;
    area[20] = 0x5a;
    let tidied = tidy::tidy(&mut area, 0x1000);
    show_done(out, "voids without checksum", "tidy", tidied, &area)?;
    show_check(out, "voids without checksum", Current, &area, 0x1000)
}

// Three bytes have no room in a full list with two voids without data; tidied, it takes them.
fn tidy_for_room(out: &mut impl Write) -> Shown {
    let mut area = [0u8; 64];
    create::create(&mut area, 0x1000, true)?;
    edits::add(&mut area, 0x1000, 1, b"", false)?;
    edits::add(&mut area, 0x1000, 1, b"", false)?;
    edits::add(&mut area, 0x1000, 2, b"0123456789abcdef", false)?;
    edits::void(&mut area, 0x1000, 1, 0)?;
    edits::void(&mut area, 0x1000, 1, 0)?;
    let refused = edits::add(&mut area, 0x1000, 3, b"\x01\x02\x03", true);
    show_done(out, "room in voids", "add", refused, &area)?;
    let tidied = tidy::tidy(&mut area, 0x1000);
    show_done(out, "room in voids", "tidy", tidied, &area)?;
    let added = edits::add(&mut area, 0x1000, 3, b"\x01\x02\x03", true);
    show_done(out, "room in voids", "add", added, &area)
}

// No entries; a void and a wrong checksum; the same in version 2 with the right one.
fn tidy_nothing(out: &mut impl Write) -> Shown {
    let mut area = [0u8; 48];
    create::create(&mut area, 0x1000, true)?;
    let same = tidy::tidy(&mut area, 0x1000);
    show_done(out, "no entries", "tidy", same, &area)?;
    edits::add(&mut area, 0x1000, 1, b"", false)?;
    edits::void(&mut area, 0x1000, 1, 0)?;
    area[4] = 0xfd;
    let wrong = tidy::tidy(&mut area, 0x1000);
    show_done(out, "bad checksum", "tidy", wrong, &area)?;
    area[5] = 2;
    area[4] = 0xff;
    let later = tidy::tidy(&mut area, 0x1000);
    show_done(out, "void in version 2", "tidy", later, &area)?;
    show_check(out, "void in version 2", Current, &area, 0x1000)
}

// Bytes of which no two neighbours are equal.
fn fill(a: &mut [u8]) {
    for (i, byte) in a.iter_mut().enumerate() {
        *byte = (i % 256 * 167 % 256) as u8;
    }
}

// The exclusive or of 0, 1, 2 .. bytes from a start on, up to the end.
fn show_xors(out: &mut impl Write, s: &[u8], start: usize) -> Shown {
    write!(out, "xor from {start}")?;
    if let Some(rest) = s.get(start..) {
        for n in 0..=rest.len() {
            write!(out, " {:02x}", wire::xor(&rest[..n]))?;
        }
    }
    writeln!(out)?;
    Ok(())
}

// Any start and any length. A turn takes 1, 8 or 32 bytes, as compiled for x86-64 also 128; 300 are more than two of each.
fn xors(out: &mut impl Write) -> Shown {
    let mut bytes = [0u8; 300];
    fill(&mut bytes);
    show_xors(out, &bytes, 0)?;
    show_xors(out, &bytes, 1)?;
    show_xors(out, &bytes, 8)?;
    show_xors(out, &bytes, 13)?;
    show_xors(out, &bytes, 299)?;
    show_xors(out, &bytes, 300)
}

// ---- The test certificate (document 02, request 5). The first example is the request's, the others are our own.

// The serial and the test of every certificate below.
const SERIAL: u64 = 0x0123_4567_89ab_cdef;

const TEST: u64 = 0x0fed_cba9_8765_4321;

// The patterns of floats: 0.25, -100, 850, 900, -0.0, the next above 1, 2 to the 1023, infinity, no number.
const QUARTER: u64 = 0x3fd0_0000_0000_0000;

const MINUS_100: u64 = 0xc059_0000_0000_0000;

const N_850: u64 = 0x408a_9000_0000_0000;

const N_900: u64 = 0x408c_2000_0000_0000;

const MINUS_0: u64 = 0x8000_0000_0000_0000;

const OVER_1: u64 = 0x3ff0_0000_0000_0001;

const HUGE: u64 = 0x7fe0_0000_0000_0000;

const INFINITY: u64 = 0x7ff0_0000_0000_0000;

const NO_NUMBER: u64 = 0x7ff8_0000_0000_0000;

// The 64 bits of a float. Those of no number are not defined; it is shown by a pattern of its own.
fn bits(x: f64) -> u64 {
    if x.is_nan() {
        return NO_NUMBER;
    }
    x.to_bits()
}

// The answer about the certificate of the list in area, and the area.
fn show_certificate(
    out: &mut impl Write,
    example: &str,
    area: &[u8],
    serial: u64,
    test: u64,
) -> Shown {
    let a = transfer_list::tl_certificate(area, 0x1000, serial, test);
    writeln!(out, "{example} certificate {}{}", Numbers(a), Hex(area))?;
    Ok(())
}

// A certificate's 56 bytes.
fn put_certificate(d: &mut [u8], c: Certificate) {
    put_part(d, 0, &c.serial.to_le_bytes());
    put_part(d, 8, &c.test.to_le_bytes());
    put_part(d, 16, &c.kind.to_le_bytes());
    put_part(d, 20, &c.counts.to_le_bytes());
    put_part(d, 24, &c.gain.to_le_bytes());
    put_part(d, 32, &c.offset.to_le_bytes());
    put_part(d, 40, &c.low.to_le_bytes());
    put_part(d, 48, &c.high.to_le_bytes());
}

fn add_certificate(area: &mut [u8], c: Certificate) {
    let mut data = [0u8; 56];
    put_certificate(&mut data, c);
    transfer_list::tl_add(area, 0x1000, Certificate::TAG, &data, false);
}

// A reading of 900, at the high limit of its band.
fn made_900() -> Certificate {
    Certificate {
        serial: SERIAL,
        test: TEST,
        kind: Gate::BAND,
        counts: 4000,
        gain: QUARTER,
        offset: MINUS_100,
        low: N_850,
        high: N_900,
    }
}

// A certificate in a new list.
fn certify(out: &mut impl Write, example: &str, c: Certificate) -> Shown {
    let mut area = [0u8; 88];
    create::create(&mut area, 0x1000, true)?;
    add_certificate(&mut area, c);
    show_certificate(out, example, &area, SERIAL, TEST)
}

// Any gate for a gauge with gain 0.25 and offset -100: kind, counts, low, high.
fn gate(out: &mut impl Write, kind: u32, counts: u32, low: u64, high: u64) -> Shown {
    let c = Certificate {
        kind,
        counts,
        low,
        high,
        ..made_900()
    };
    certify(out, "gate", c)
}

fn gates(out: &mut impl Write) -> Shown {
    // A band at its high, above, at its low, below; a ceiling at it, above; a floor at it, below; the most counts.
    gate(out, Gate::BAND, 4000, N_850, N_900)?;
    gate(out, Gate::BAND, 4001, N_850, N_900)?;
    gate(out, Gate::BAND, 3800, N_850, N_900)?;
    gate(out, Gate::BAND, 3799, N_850, N_900)?;
    gate(out, Gate::CEILING, 4000, 0, N_900)?;
    gate(out, Gate::CEILING, 4001, 0, N_900)?;
    gate(out, Gate::FLOOR, 4000, N_900, 0)?;
    gate(out, Gate::FLOOR, 3999, N_900, 0)?;
    gate(out, Gate::FLOOR, 0x100_0000, N_900, 0)?;
    // Refused: more counts; other kinds; an unused limit of -0.0; a band's low above its high; limits that are not finite.
    gate(out, Gate::FLOOR, 0x100_0001, N_900, 0)?;
    gate(out, 0, 4000, N_850, N_900)?;
    gate(out, 4, 4000, N_850, N_900)?;
    gate(out, 257, 4000, N_850, N_900)?;
    gate(out, Gate::CEILING, 4000, MINUS_0, N_900)?;
    gate(out, Gate::FLOOR, 4000, N_900, MINUS_0)?;
    gate(out, Gate::BAND, 4000, N_900, N_850)?;
    gate(out, Gate::FLOOR, 4000, NO_NUMBER, 0)?;
    gate(out, Gate::FLOOR, 4000, 0xfff0_0000_0000_0000, 0)?;
    gate(out, Gate::CEILING, 4000, 0, NO_NUMBER)?;
    gate(out, Gate::CEILING, 4000, 0, INFINITY)
}

// Any gauge with a floor of 0.0: counts, gain, offset.
fn gauge(out: &mut impl Write, counts: u32, gain: u64, offset: u64) -> Shown {
    let c = Certificate {
        kind: Gate::FLOOR,
        counts,
        gain,
        offset,
        low: 0,
        high: 0,
        ..made_900()
    };
    certify(out, "gauge", c)
}

fn gauges(out: &mut impl Write) -> Shown {
    // The least gain; a product that is rounded before -3 is added: of the exact one 3 times 2 to the -52 would be left, and not 2 to the -50.
    gauge(out, 1, 1, 0)?;
    gauge(out, 3, OVER_1, 0xc008_0000_0000_0000)?;
    // Refused: a gain of 0.0, of -0.0, below, infinite, no number, no number that signals; an offset that is infinite, no number; a product
    // that is infinite with an offset that is not; a sum.
    gauge(out, 4000, 0, N_900)?;
    gauge(out, 4000, MINUS_0, N_900)?;
    gauge(out, 4000, 0xbfd0_0000_0000_0000, N_900)?;
    gauge(out, 4000, INFINITY, N_900)?;
    gauge(out, 4000, NO_NUMBER, N_900)?;
    gauge(out, 4000, 0x7ff0_0000_0000_0001, N_900)?;
    gauge(out, 4000, QUARTER, INFINITY)?;
    gauge(out, 4000, QUARTER, NO_NUMBER)?;
    gauge(out, 2, HUGE, 0xffef_ffff_ffff_ffff)?;
    gauge(out, 1, HUGE, HUGE)?;
    // 0.0 and -0.0 add up to 0.0, which a band from 0.0 to -0.0 lets pass.
    let zeros = Certificate {
        counts: 0,
        offset: MINUS_0,
        low: 0,
        high: MINUS_0,
        ..made_900()
    };
    certify(out, "band of zeros", zeros)
}

// None; one; another serial and another test, by their highest bits; two; those and a wrong checksum, which comes first.
fn certificates_in_a_list(out: &mut impl Write) -> Shown {
    let mut area = [0u8; 152];
    create::create(&mut area, 0x1000, true)?;
    show_certificate(out, "none", &area, SERIAL, TEST)?;
    add_certificate(&mut area, made_900());
    show_certificate(out, "one", &area, SERIAL, TEST)?;
    show_certificate(out, "another serial", &area, 0x8123_4567_89ab_cdef, TEST)?;
    show_certificate(out, "another test", &area, SERIAL, 0x8fed_cba9_8765_4321)?;
    add_certificate(&mut area, made_900());
    show_certificate(out, "two", &area, SERIAL, TEST)?;
    area[4] ^= 1;
    show_certificate(out, "two and bad checksum", &area, SERIAL, TEST)
}

// Lists of 96 bytes, which have room for each length.
fn certificate_of(out: &mut impl Write, example: &str, data: &[u8]) -> Shown {
    let mut area = [0u8; 96];
    show_adds(out, example, &mut area, Certificate::TAG, data)
}

// Beside an entry of 12 bytes, whose tag then becomes the certificate's by hand. No checksum.
fn certificate_beside_12(out: &mut impl Write) -> Shown {
    let mut area = [0u8; 112];
    create::create(&mut area, 0x1000, false)?;
    add_certificate(&mut area, made_900());
    edits::add(&mut area, 0x1000, 1, b"0123456789ab", false)?;
    show_certificate(out, "beside tag 1", &area, SERIAL, TEST)?;
    put_part(&mut area, 88, &0x08ff_f010u32.to_le_bytes());
    show_certificate(out, "beside one of 12", &area, SERIAL, TEST)
}

// Alone, with a data_size that is made 55 by hand. No checksum.
fn certificate_of_55(out: &mut impl Write) -> Shown {
    let mut area = [0u8; 88];
    create::create(&mut area, 0x1000, false)?;
    add_certificate(&mut area, made_900());
    area[28] = 55;
    show_certificate(out, "one of 55", &area, SERIAL, TEST)
}

// An entry of 57 bytes becomes version 2's by hand, with a header of 9 bytes, the tag and 56 bytes of data at an odd address.
fn certificate_at_odd_address(out: &mut impl Write) -> Shown {
    let mut data = [0u8; 57];
    put_certificate(&mut data[1..], made_900());
    let mut area = [0u8; 96];
    create::create(&mut area, 0x1000, false)?;
    edits::add(&mut area, 0x1000, 1, &data, false)?;
    area[5] = 2;
    put_part(&mut area, 24, &0x09ff_f010u32.to_le_bytes());
    put_part(&mut area, 28, &56u32.to_le_bytes());
    show_certificate(out, "at an odd address", &area, SERIAL, TEST)
}

// A device tree whose header, reservation block of one zero pair, structure and strings stand each right behind the one before.
fn put_fdt(d: &mut [u8], structure: &[u8], strings: &[u8]) {
    let size = structure.len() % 65536;
    let strings_size = strings.len() % 65536;
    let strings_at = 56 + size;
    let total = strings_at + strings_size;
    // Magic and size; where structure, strings and reservations stand; version, last compatible one, boot processor; two blocks' sizes.
    let header: [u32; 10] = [
        0xd00d_feed,
        total as u32,
        56,
        strings_at as u32,
        40,
        17,
        16,
        0,
        strings_size as u32,
        size as u32,
    ];
    for (cell, n) in d.as_chunks_mut::<4>().0.iter_mut().zip(header) {
        *cell = n.to_be_bytes();
    }
    put_part(d, 56, structure);
    put_part(d, strings_at, strings);
}

// The strings of the sample, and of most other trees.
const SAMPLE_STRINGS: &[u8] = b"model\0x\0y\0";

// The sample: a root with model, a NOP, and two nodes a, the first with x, a byte, the second with y, which has no bytes.
fn put_sample(d: &mut [u8]) {
    put_fdt(
        d,
        b"\0\0\0\x01\0\0\0\0\0\0\0\x03\0\0\0\x04\0\0\0\0v900\0\0\0\x04\0\0\0\x01\
              a\0\0\0\0\0\0\x03\0\0\0\x01\0\0\0\x06Z\0\0\0\0\0\0\x02\0\0\0\x01a\0\0\0\
              \0\0\0\x03\0\0\0\0\0\0\0\x08\0\0\0\x02\0\0\0\x02\0\0\0\x09",
        SAMPLE_STRINGS,
    );
}

fn show_fdt(out: &mut impl Write, example: &str, d: &[u8]) -> Shown {
    writeln!(out, "{example} fdt {}", transfer_list::tl_fdt_check(d))?;
    Ok(())
}

// A tree of a structure and strings, with zeros behind it up to 512 bytes.
fn fdt(out: &mut impl Write, example: &str, structure: &[u8], strings: &[u8]) -> Shown {
    let mut d = [0u8; 512];
    put_fdt(&mut d, structure, strings);
    show_fdt(out, example, &d)
}

// The sample with a number in place of another.
fn fdt_with(out: &mut impl Write, example: &str, at: usize, n: u32) -> Shown {
    let mut d = [0u8; 512];
    put_sample(&mut d);
    put_part(&mut d, at, &n.to_be_bytes());
    show_fdt(out, example, &d)
}

// A property of the sample: find's numbers, and the value itself.
fn fdt_find(out: &mut impl Write, path: &[u8], name: &[u8]) -> Shown {
    let mut d = [0u8; 512];
    put_sample(&mut d);
    let found = transfer_list::tl_fdt_find(&d, path, name);
    let value = transfer_list::tl_fdt_find_data(&d, path, name);
    show_found(out, "fdt", found, value)
}

// The sample as it is; fields of its header, at their limits or off by one.
fn fdt_headers(out: &mut impl Write) -> Shown {
    fdt_with(out, "sample", 28, 0)?;
    fdt_with(out, "boot processor 1", 28, 1)?;
    fdt_with(out, "other magic", 0, 0xd00dfeee)?;
    fdt_with(out, "totalsize one less", 4, 0x99)?;
    fdt_with(out, "totalsize 512", 4, 0x200)?;
    fdt_with(out, "totalsize 513", 4, 0x201)?;
    fdt_with(out, "reservations from 32", 16, 0x20)?;
    fdt_with(out, "reservations from 44", 16, 0x2c)?;
    fdt_with(out, "reservations not ended", 40, 1)?;
    fdt_with(out, "version 16", 20, 0x10)?;
    fdt_with(out, "last compatible 17", 24, 0x11)?;
    fdt_with(out, "structure size one less", 36, 0x57)?;
    fdt_with(out, "strings one earlier", 12, 0x8f)
}

// The first bytes alone.
fn fdt_lengths(out: &mut impl Write) -> Shown {
    let mut d = [0u8; 512];
    put_sample(&mut d);
    show_fdt(out, "first 39", &d[0..39])?;
    show_fdt(out, "first 40", &d[0..40])?;
    show_fdt(out, "first 153", &d[0..153])?;
    show_fdt(out, "first 154", &d[0..154])
}

// In the sample: the last name offset and one behind; lengths that would wrap; a token that is none; padding.
fn fdt_names_and_values(out: &mut impl Write) -> Shown {
    fdt_with(out, "empty name", 100, 9)?;
    fdt_with(out, "name offset at the end", 100, 0xa)?;
    fdt_with(out, "length of 2^32 - 1", 96, 0xffffffff)?;
    fdt_with(out, "length of 2^32 - 12", 96, 0xfffffff4)?;
    fdt_with(out, "token 5", 80, 5)?;
    fdt_with(out, "padding of a value", 104, 0x5a000001)?;
    fdt_with(out, "padding of a name", 88, 0x61000001)
}

// Whole structures.
fn fdt_structures(out: &mut impl Write) -> Shown {
    fdt(
        out,
        "root alone",
        b"\0\0\0\x01\0\0\0\0\0\0\0\x02\0\0\0\x09",
        SAMPLE_STRINGS,
    )?;
    fdt(
        out,
        "NOP everywhere",
        b"\0\0\0\x04\0\0\0\x01\0\0\0\0\0\0\0\x04\0\0\0\x03\0\0\0\x04\0\0\0\0v900\
              \0\0\0\x04\0\0\0\x01a\0\0\0\0\0\0\x04\0\0\0\x02\0\0\0\x04\0\0\0\x02\0\0\0\x04\
              \0\0\0\x09",
        SAMPLE_STRINGS,
    )?;
    fdt(
        out,
        "named root",
        b"\0\0\0\x01a\0\0\0\0\0\0\x02\0\0\0\x09",
        SAMPLE_STRINGS,
    )?;
    fdt(out, "no root", b"\0\0\0\x09", SAMPLE_STRINGS)?;
    fdt(out, "nothing", b"", SAMPLE_STRINGS)?;
    fdt(
        out,
        "second root",
        b"\0\0\0\x01\0\0\0\0\0\0\0\x02\0\0\0\x01\0\0\0\0\0\0\0\x02\0\0\0\x09",
        SAMPLE_STRINGS,
    )?;
    fdt(
        out,
        "property at the top",
        b"\0\0\0\x03\0\0\0\x04\0\0\0\0v900\0\0\0\x01\0\0\0\0\0\0\0\x02\0\0\0\x09",
        SAMPLE_STRINGS,
    )?;
    fdt(
        out,
        "property behind a subnode",
        b"\0\0\0\x01\0\0\0\0\0\0\0\x01a\0\0\0\0\0\0\x02\0\0\0\x03\0\0\0\x04\0\0\0\0v900\0\0\0\x02\0\0\0\x09",
        SAMPLE_STRINGS,
    )?;
    fdt(
        out,
        "END inside",
        b"\0\0\0\x01\0\0\0\0\0\0\0\x09\0\0\0\x02\0\0\0\x09",
        SAMPLE_STRINGS,
    )?;
    fdt(
        out,
        "no END",
        b"\0\0\0\x01\0\0\0\0\0\0\0\x02",
        SAMPLE_STRINGS,
    )?;
    fdt(
        out,
        "behind END",
        b"\0\0\0\x01\0\0\0\0\0\0\0\x02\0\0\0\x09\0\0\0\x04",
        SAMPLE_STRINGS,
    )?;
    fdt(
        out,
        "strings empty",
        b"\0\0\0\x01\0\0\0\0\0\0\0\x02\0\0\0\x09",
        b"",
    )?;
    fdt(
        out,
        "strings empty, a property",
        b"\0\0\0\x01\0\0\0\0\0\0\0\x03\0\0\0\x04\0\0\0\0v900\0\0\0\x02\0\0\0\x09",
        b"",
    )?;
    fdt(
        out,
        "16 nodes",
        b"\0\0\0\x01\0\0\0\0\0\0\0\x01\0\0\0\0\0\0\0\x01\0\0\0\0\0\0\0\x01\0\0\0\0\
              \0\0\0\x01\0\0\0\0\0\0\0\x01\0\0\0\0\0\0\0\x01\0\0\0\0\0\0\0\x01\0\0\0\0\
              \0\0\0\x01\0\0\0\0\0\0\0\x01\0\0\0\0\0\0\0\x01\0\0\0\0\0\0\0\x01\0\0\0\0\
              \0\0\0\x01\0\0\0\0\0\0\0\x01\0\0\0\0\0\0\0\x01\0\0\0\0\0\0\0\x01\0\0\0\0\
              \0\0\0\x02\0\0\0\x02\0\0\0\x02\0\0\0\x02\0\0\0\x02\0\0\0\x02\0\0\0\x02\0\0\0\x02\
              \0\0\0\x02\0\0\0\x02\0\0\0\x02\0\0\0\x02\0\0\0\x02\0\0\0\x02\0\0\0\x02\0\0\0\x02\
              \0\0\0\x09",
        SAMPLE_STRINGS,
    )?;
    fdt(
        out,
        "17 nodes",
        b"\0\0\0\x01\0\0\0\0\0\0\0\x01\0\0\0\0\0\0\0\x01\0\0\0\0\0\0\0\x01\0\0\0\0\
              \0\0\0\x01\0\0\0\0\0\0\0\x01\0\0\0\0\0\0\0\x01\0\0\0\0\0\0\0\x01\0\0\0\0\
              \0\0\0\x01\0\0\0\0\0\0\0\x01\0\0\0\0\0\0\0\x01\0\0\0\0\0\0\0\x01\0\0\0\0\
              \0\0\0\x01\0\0\0\0\0\0\0\x01\0\0\0\0\0\0\0\x01\0\0\0\0\0\0\0\x01\0\0\0\0\
              \0\0\0\x01\0\0\0\0\0\0\0\x02\0\0\0\x02\0\0\0\x02\0\0\0\x02\0\0\0\x02\0\0\0\x02\
              \0\0\0\x02\0\0\0\x02\0\0\0\x02\0\0\0\x02\0\0\0\x02\0\0\0\x02\0\0\0\x02\0\0\0\x02\
              \0\0\0\x02\0\0\0\x02\0\0\0\x02\0\0\0\x09",
        SAMPLE_STRINGS,
    )
}

// In the sample, whose root has two nodes a: the first has x, the second y.
fn fdt_finds(out: &mut impl Write) -> Shown {
    fdt_find(out, b"/", b"model")?;
    fdt_find(out, b"/a", b"x")?;
    fdt_find(out, b"/a", b"y")?;
    fdt_find(out, b"/", b"x")?;
    fdt_find(out, b"/a", b"model")?;
    fdt_find(out, b"/b", b"x")?;
    fdt_find(out, b"/a", b"")?;
    fdt_find(out, b"", b"model")?;
    fdt_find(out, b"a", b"x")?;
    fdt_find(out, b"//", b"model")?;
    fdt_find(out, b"/a/", b"x")?;
    fdt_find(out, b"/a//a", b"x")?;
    fdt_find(out, b"/a\0", b"x")?;
    fdt_find(out, b"/a", b"x\0")
}

// ---- Alignments up to 21 (document 02, request 7). The examples are our own.

// Four bytes aligned, in a new list of 80 bytes. Byte 40, where the padding void will be, is not 0 before.
fn aligned_near(out: &mut impl Write, example: &str, base: u64, exponent: u32) -> Shown {
    let mut area = [0u8; 80];
    create::create(&mut area, base, true)?;
    area[40] = 0xee;
    let aligned = edits::add_aligned(&mut area, base, 4, b"\x01\x02\x03\x04", exponent);
    show_done(out, example, "add aligned", aligned, &area)?;
    show_check(out, example, Current, &area, base)
}

// A padding void with 32,728 bytes of data in an area of 65,536; byte 1000 is not 0 before. The first 24 bytes are shown.
fn aligned_far(out: &mut impl Write) -> Shown {
    let mut area = [0xffu8; 65536];
    create::create(&mut area, 0x1f_8000, true)?;
    area[1000] = 0xee;
    let aligned = edits::add_aligned(&mut area, 0x1f_8000, 4, b"\x01\x02\x03\x04", 21);
    show_first(out, "large padding", "add aligned", aligned, &area)?;
    show_check(out, "large padding", Current, &area, 0x1f_8000)?;
    show_find(out, "large padding", Current, &area, 0x1f_8000, 4, 0)
}

// The list of exponent 21, relocated with a shift of 8, and to a place where it has no room.
fn relocations_21(out: &mut impl Write) -> Shown {
    let mut area = [0u8; 80];
    create::create(&mut area, 0x1f_ffc0, true)?;
    edits::add_aligned(&mut area, 0x1f_ffc0, 4, b"\x01\x02\x03\x04", 21)?;
    let mut target = [0xffu8; 96];
    let moved = relocate::relocate(&area, 0x1f_ffc0, &mut target, 0x3f_ffb8);
    show_done(out, "alignment 21", "relocate", moved, &target)?;
    let mut far = [0xffu8; 96];
    let refused = relocate::relocate(&area, 0x1f_ffc0, &mut far, 0x40_0000);
    show_done(out, "alignment 21", "relocate", refused, &far)
}

// A new list of edition 0.9 with alignment 21, its conversions from 0x1000 and from 0, and one with 22.
fn alignments_09(out: &mut impl Write) -> Shown {
    let most = b"\xff\xd0\x6e\0\x83\x01\x10\x15\x10\0\0\0\x10\0\0\0";
    let over = b"\xff\xd0\x6e\0\x84\x01\x10\x16\x10\0\0\0\x10\0\0\0";
    show_check(out, "09 alignment 21", Edition09, most, 0x1000)?;
    show_convert(out, "09 alignment 21", most, 0x1000, &mut [0xff; 64], 0xff0)?;
    show_convert(
        out,
        "09 alignment 21 from 0",
        most,
        0,
        &mut [0xff; 64],
        0x1f_fff1,
    )?;
    show_convert(
        out,
        "09 alignment 21 no room",
        most,
        0,
        &mut [0xff; 64],
        0x1000,
    )?;
    show_check(out, "09 alignment 22", Edition09, over, 0x1000)?;
    show_convert(out, "09 alignment 22", over, 0x1000, &mut [0xff; 64], 0xff0)
}

// ---- Where the bad entry is (document 02, request 8). The examples are our own.

// A list without a checksum of three entries of 16 bytes, of which a byte is set by hand.
fn make_bad(area: &mut [u8], at: usize, byte: u8) -> Result<(), Refusal> {
    create::create(area, 0x1000, false)?;
    edits::add(area, 0x1000, 1, b"\xaa\xbb\xcc", false)?;
    edits::add(area, 0x1000, 2, b"\xaa\xbb\xcc", false)?;
    edits::add(area, 0x1000, 3, b"\xaa\xbb\xcc", false)?;
    put_part(area, at, &[byte]);
    Ok(())
}

fn bad_entry(out: &mut impl Write, example: &str, at: usize, byte: u8) -> Shown {
    let mut area = [0u8; 72];
    make_bad(&mut area, at, byte)?;
    show_check(out, example, Current, &area, 0x1000)
}

// The first, the middle and the last entry with a header of 9 bytes; with 49 bytes of data where at most 40 are left; as a void of 3.
fn bad_entries(out: &mut impl Write) -> Shown {
    bad_entry(out, "header of 9 first", 27, 0x09)?;
    bad_entry(out, "header of 9 in the middle", 43, 0x09)?;
    bad_entry(out, "header of 9 last", 59, 0x09)?;
    bad_entry(out, "data of 49 first", 28, 0x31)?;
    bad_entry(out, "data of 49 in the middle", 44, 0x31)?;
    bad_entry(out, "data of 49 last", 60, 0x31)?;
    bad_entry(out, "void of 3 first", 24, 0)?;
    bad_entry(out, "void of 3 in the middle", 40, 0)?;
    bad_entry(out, "void of 3 last", 56, 0)?;
    bad_entry(out, "data of 40 first", 28, 0x28)
}

// Every call that makes the check, on the list whose middle entry has a header of 9 bytes, and whose last one has too.
fn bad_entry_calls(out: &mut impl Write) -> Shown {
    let mut area = [0u8; 72];
    let mut target = [0xffu8; 80];
    make_bad(&mut area, 43, 0x09)?;
    area[59] = 9;
    show_find(out, "two of 9", Current, &area, 0x1000, 1, 0)?;
    let added = edits::add(&mut area, 0x1000, 0, b"", true);
    show_done(out, "two of 9", "add", added, &area)?;
    let aligned = edits::add_aligned(&mut area, 0x1000, 4, b"", 22);
    show_done(out, "two of 9", "add aligned", aligned, &area)?;
    let voided = edits::void(&mut area, 0x1000, 1, 0);
    show_done(out, "two of 9", "void", voided, &area)?;
    let tidied = tidy::tidy(&mut area, 0x1000);
    show_done(out, "two of 9", "tidy", tidied, &area)?;
    let moved = relocate::relocate(&area, 0x1000, &mut target, 0x2000);
    show_done(out, "two of 9", "relocate", moved, &target)?;
    show_certificate(out, "two of 9", &area, 1, 1)?;
    area[4] = 1;
    show_check(out, "two of 9 and bad checksum", Current, &area, 0x1000)
}

// Of version 2 a header of 9 bytes is good, and one of 7 is not; an edit is READONLY. Of edition 0.9 the first entry stands at 16.
fn bad_entries_elsewhere(out: &mut impl Write) -> Shown {
    let mut area = [0u8; 72];
    make_bad(&mut area, 43, 0x09)?;
    area[5] = 2;
    show_check(out, "header of 9 in version 2", Current, &area, 0x1000)?;
    area[59] = 7;
    show_check(out, "header of 7 in version 2", Current, &area, 0x1000)?;
    let tidied = tidy::tidy(&mut area, 0x1000);
    show_done(out, "header of 7 in version 2", "tidy", tidied, &area)?;
    let old =
        b"\xff\xd0\x6e\0\xf9\x01\x10\x03\x30\0\0\0\x30\0\0\0\x01\0\0\x08\x03\0\0\0\xaa\xbb\xcc\0\0\0\0\0\0\0\0\x08\x03\0\0\0\0\0\0\0\0\0\0\0";
    show_check(out, "09 void of 3", Edition09, old, 0x1000)?;
    show_find(out, "09 void of 3", Edition09, old, 0x1000, 1, 0)?;
    show_convert(out, "09 void of 3", old, 0x1000, &mut [0xff; 64], 0x2000)
}

// The answer of a journalled call or of a step, the area and the journal.
fn show_both(
    out: &mut impl Write,
    example: &str,
    answer: &impl fmt::Display,
    area: &[u8],
    journal: &[u8],
) -> Shown {
    writeln!(out, "{example} {answer}{} |{}", Hex(area), Hex(journal))?;
    Ok(())
}

// A list of 64 bytes with tag 1, aa bb cc.
fn make_one(area: &mut [u8]) -> Result<(), Refusal> {
    create::create(area, 0x1000, true)?;
    edits::add(area, 0x1000, 1, b"\xaa\xbb\xcc", false)?;
    Ok(())
}

// Its entry voided: words 0, 24 and 32 change, so that four records are enough.
fn journalled_void(out: &mut impl Write, example: &str, journal: &mut [u8]) -> Shown {
    let mut area = [0u8; 64];
    make_one(&mut area)?;
    let a = forms::void(&mut area, 0x1000, 1, 0, journal);
    show_both(out, example, &Numbers(a), &area, journal)
}

// Tag 2 with 5a added behind it: words 0, 8, 40 and 48 change.
fn journalled_add(out: &mut impl Write, example: &str, tag: u32, journal: &mut [u8]) -> Shown {
    let mut area = [0u8; 64];
    make_one(&mut area)?;
    let a = forms::add(&mut area, 0x1000, tag, b"\x5a", true, journal);
    show_both(out, example, &Numbers(a), &area, journal)
}

// The same, aligned: to 32 it would stand behind a padding void of 16 bytes, and has no room.
fn journalled_aligned(
    out: &mut impl Write,
    example: &str,
    exponent: u32,
    journal: &mut [u8],
) -> Shown {
    let mut area = [0u8; 64];
    make_one(&mut area)?;
    let a = forms::add_aligned(&mut area, 0x1000, 2, b"\x5a", exponent, journal);
    show_both(out, example, &Numbers(a), &area, journal)
}

fn journalled_edits(out: &mut impl Write) -> Shown {
    let mut exact = [0u8; 64];
    put_part(&mut exact, 1, b"\xee");
    journalled_void(out, "void, four records", &mut exact)?;
    journalled_void(out, "void, four records and 15 bytes", &mut [0u8; 79])?;
    journalled_void(out, "void, three records and 15 bytes", &mut [0u8; 63])?;
    journalled_void(out, "void, no journal", &mut [])?;
    let mut kind = [0u8; 96];
    put_part(&mut kind, 80, b"\x01");
    journalled_void(out, "void, a kind behind", &mut kind)?;
    journalled_add(out, "add, five records", 2, &mut [0u8; 80])?;
    journalled_add(out, "add, four records", 2, &mut [0u8; 64])?;
    journalled_add(out, "add, tag 0, no journal", 0, &mut [])?;
    journalled_aligned(out, "add aligned to 8, five records", 3, &mut [0u8; 80])?;
    journalled_aligned(out, "add aligned to 32, no journal", 5, &mut [])
}

// An area of 20 bytes, ff each, and a journal of two records, recovered.
fn recovery(out: &mut impl Write, example: &str, first: &[u8], second: &[u8]) -> Shown {
    let mut area = [0xffu8; 20];
    let mut journal = [0u8; 33];
    put_part(&mut journal, 0, first);
    put_part(&mut journal, 16, second);
    let a = whole::recover(&mut area, &mut journal);
    show_both(out, example, &Numbers(a), &area, &journal)
}

fn recoveries(out: &mut impl Write) -> Shown {
    let word = b"\x01\0\0\0\x08\0\0\0\x11\x12\x13\x14\x15\x16\x17\x18";
    let odd = b"\x01\0\0\0\x04\0\0\0\x11\x12\x13\x14\x15\x16\x17\x18";
    let far = b"\x01\0\0\0\x10\0\0\0\x11\x12\x13\x14\x15\x16\x17\x18";
    let last = b"\x01\0\0\0\xf8\xff\xff\xff\x11\x12\x13\x14\x15\x16\x17\x18";
    recovery(out, "recover, empty", b"", b"")?;
    recovery(out, "recover, word and commit", word, b"\x02")?;
    recovery(out, "recover, word and no commit", word, b"")?;
    recovery(out, "recover, commit and word", b"\x02", word)?;
    recovery(out, "recover, word and kind 3", word, b"\x03")?;
    recovery(out, "recover, commit and kind 3", b"\x02", b"\x03")?;
    recovery(out, "recover, odd offset", odd, b"\x02")?;
    recovery(out, "recover, odd offset, no commit", odd, b"")?;
    recovery(out, "recover, offset 16 of 20", far, b"\x02")?;
    recovery(out, "recover, offset 0xfffffff8", last, b"\x02")?;
    let mut area = [0xffu8; 8];
    let mut short = [0x03u8; 15];
    let a = whole::recover(&mut area, &mut short);
    show_both(out, "recover, no whole record", &Numbers(a), &area, &short)
}

// One step, shown.
fn show_next(
    out: &mut impl Write,
    r: Stepped,
    area: &mut [u8],
    journal: &mut [u8],
) -> Result<Stepped, Stop> {
    let next = advance::step(r.state, area, b"", journal);
    show_both(out, "step", &Numbers(next), area, journal)?;
    Ok(next)
}

// The void's first four bytes, then the power is cut, and the recovery: four kinds are cleared, and it has ended; a step more.
fn stepped_void(out: &mut impl Write) -> Shown {
    let mut area = [0u8; 64];
    let mut journal = [0u8; 64];
    make_one(&mut area)?;
    let mut r = starts::void(&area, 0x1000, 1, 0, &journal).report();
    show_both(out, "void steps", &Numbers(r), &area, &journal)?;
    for _ in 0..4 {
        r = show_next(out, r, &mut area, &mut journal)?;
    }
    r = begin::recover_start(&area, &journal).report();
    show_both(out, "recover steps", &Numbers(r), &area, &journal)?;
    for _ in 0..5 {
        r = show_next(out, r, &mut area, &mut journal)?;
    }
    Ok(())
}

// A step on a state that none left: 17, and again.
fn foreign_state(out: &mut impl Write) -> Shown {
    let mut area = [0u8; 8];
    let mut journal = [0u8; 16];
    let s = Steps {
        phase: 99,
        ..begin::recover_start(&area, &journal)
    };
    let r = advance::step(s, &mut area, b"", &mut journal);
    show_both(out, "phase 99", &Numbers(r), &area, &journal)?;
    show_next(out, r, &mut area, &mut journal)?;
    Ok(())
}

// The paper's examples.
fn examples_a_to_n(out: &mut impl Write) -> Shown {
    examples_a_to_d(out)?;
    example_e(out, b"0123456789abcdefg")?;
    example_e(out, b"0123456789abcdef")?;
    example_e(out, b"012345678")?;
    example_e(out, b"01234567")?;
    example_f(out)?;
    example_g(out)?;
    example_h(out)?;
    example_i(out)?;
    example_j(out, "J2", 2)?;
    example_j(out, "J22", 22)?;
    example_j(out, "J3", 3)?;
    example_j(out, "J12", 12)?;
    example_j(out, "J13", 13)?;
    example_j(out, "J21", 21)?;
    example_k(out)?;
    example_m(out)?;
    example_n(out)
}

// Edition 0.9.
fn edition_09(out: &mut impl Write) -> Shown {
    examples_09(out)?;
    conversions_09(out)
}

// The event log's length.
fn event_logs(out: &mut impl Write) -> Shown {
    event_log(out, "event log of 0", b"")?;
    event_log(out, "event log of 3", b"\x01\0\0")?;
    event_log(out, "event log of 4", b"\x01\0\0\0")?;
    event_log(out, "event log of 5", b"\x01\0\0\0\x5a")?;
    short_event_log(out)
}

// Tidying.
fn tidyings(out: &mut impl Write) -> Shown {
    tidy_six(out, "no void", [1, 1, 1, 1, 1])?;
    tidy_six(out, "lone void", [0, 1, 1, 1, 1])?;
    tidy_six(out, "voids at the start", [0, 0, 1, 1, 1])?;
    tidy_six(out, "voids in the middle", [1, 1, 0, 0, 1])?;
    tidy_six(out, "voids at the end", [1, 1, 1, 0, 0])?;
    tidy_six(out, "voids everywhere", [0, 0, 0, 1, 0])?;
    tidy_only_voids(out)?;
    tidy_without_checksum(out)?;
    tidy_for_room(out)?;
    tidy_nothing(out)
}

// The test certificate.
fn certificates(out: &mut impl Write) -> Shown {
    gates(out)?;
    gauges(out)?;
    certificates_in_a_list(out)?;
    certificate_of(out, "certificate of 55", &[0u8; 55])?;
    certificate_of(out, "certificate of 56", &[0u8; 56])?;
    certificate_of(out, "certificate of 57", &[0u8; 57])?;
    certificate_beside_12(out)?;
    certificate_of_55(out)?;
    certificate_at_odd_address(out)
}

// The device tree.
fn device_trees(out: &mut impl Write) -> Shown {
    fdt_headers(out)?;
    fdt_lengths(out)?;
    fdt_names_and_values(out)?;
    fdt_structures(out)?;
    fdt_finds(out)
}

// Alignments up to 21.
fn alignments(out: &mut impl Write) -> Shown {
    aligned_near(out, "exponent 13", 0x1fc0, 13)?;
    aligned_near(out, "exponent 21", 0x1f_ffc0, 21)?;
    aligned_near(out, "exponent 21 far", 0x1000, 21)?;
    aligned_near(out, "exponent 22", 0x3f_ffc0, 22)?;
    aligned_far(out)?;
    relocations_21(out)?;
    alignments_09(out)
}

// Where the bad entry is.
fn all_bad_entries(out: &mut impl Write) -> Shown {
    bad_entries(out)?;
    bad_entry_calls(out)?;
    bad_entries_elsewhere(out)
}

// The journal.
fn journals(out: &mut impl Write) -> Shown {
    journalled_edits(out)?;
    recoveries(out)?;
    stepped_void(out)?;
    foreign_state(out)
}

// The whole text, in the order of the file stdout.
fn show_all(out: &mut impl Write) -> Shown {
    examples_a_to_n(out)?;
    edition_09(out)?;
    event_logs(out)?;
    tidyings(out)?;
    xors(out)?;
    certificates(out)?;
    device_trees(out)?;
    alignments(out)?;
    all_bad_entries(out)?;
    journals(out)
}

fn main(rt: HostRuntime) -> Shown {
    let mut out = BufWriter::new(rt.alloc(), io::writer(&rt))?;
    show_all(&mut out)?;
    out.flush()?;
    Ok(())
}
