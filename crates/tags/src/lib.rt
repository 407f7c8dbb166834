// Refusals 9 and 10: which tags a call takes, and the tag table of data lengths that a known tag may carry.
#![tactic(auto)]

ghost use Rattle.std.specs.Prelude.{◌≡◌, ◌==◌};
ghost use Rattle.std.specs.List.{find};
ghost use Rattle.rules.specs.Refusals.{refuses_tag, refuses_tag_add};
ghost use Rattle.rules.specs.Tags.{breaks, refuses_shape};

use rules::TagRow;
use rules::certificate::Certificate;

// Document 01's table, as amended by requests 2 (tag 5) and 5 (tag 0xfff010), row by row.
const TAG_TABLE: [TagRow; 11] = [
    TagRow {
        tag: 1,
        least: 0,
        most: None,
    },
    TagRow {
        tag: 2,
        least: 0,
        most: None,
    },
    TagRow {
        tag: 3,
        least: 0,
        most: None,
    },
    TagRow {
        tag: 4,
        least: 0,
        most: None,
    },
    TagRow {
        tag: 5,
        least: 4,
        most: None,
    },
    TagRow {
        tag: 6,
        least: 12,
        most: Some(12),
    },
    TagRow {
        tag: 0x100,
        least: 8,
        most: Some(8),
    },
    TagRow {
        tag: 0x101,
        least: 0,
        most: None,
    },
    TagRow {
        tag: 0x102,
        least: 0,
        most: None,
    },
    TagRow {
        tag: 0x104,
        least: 16,
        most: Some(16),
    },
    TagRow {
        tag: Certificate::TAG,
        least: Certificate::SIZE,
        most: Some(Certificate::SIZE),
    },
];

// Refusal 9, for every call but the adds.
pub fn refuses_tag(tag: u32) -> bool
    ensures { result ≡ refuses_tag tag }
{
    (tag == 0) | (0xffffff < tag)
}

// Refusal 9, for the adds.
pub fn refuses_tag_add(tag: u32) -> bool
    ensures { result ≡ refuses_tag_add tag }
{
    refuses_tag(tag) | ((0x800000 <= tag) & (tag <= 0xffefff))
}

// A length is not one that the row allows.
fn breaks(row: TagRow, n: usize) -> bool
    ensures { result ≡ breaks row n }
{
    (n < row.least) | row.most.is_some_and(|most| most < n)
}

// The first row of a tag.
fn row_of(table: &[TagRow], tag: u32) -> Option<TagRow>
    ensures { result ≡ find (λ row. row.tag == tag) table.now }
{
    table.iter().copied().find(|row| row.tag == tag)
}

// Refusal 10: the length n breaks the tag table. A tag that is not listed may carry any length.
pub fn refuses_shape(tag: u32, n: usize) -> bool
    ensures { result ≡ refuses_shape tag n }
{
    let table = TAG_TABLE;
    match row_of(&table, tag) {
        Some(row) => breaks(row, n),
        None => false,
    }
}
