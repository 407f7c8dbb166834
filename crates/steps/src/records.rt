// The journal as the rules see it: a row of 16-byte records.
ghost use Rattle.std.specs.Prelude.{◌≡◌, ◌*◌, ◌+◌, ◌<◌};
ghost use Rattle.wire.specs.Bytes.{field};
ghost use Rattle.journal.specs.Journal.{records, kind};

use wire::Number;

// How many whole ones it has.
pub(crate) fn records(journal: &[u8]) -> usize
    ensures { result ≡ records journal.now }
{
    journal.len() / 16
}

// The kind of record i.
pub(crate) fn kind(journal: &[u8], i: usize) -> u8
    requires { i < records journal.now }
    ensures { result ≡ kind journal.now i }
{
    journal[16 * i]
}

// The offset of its word.
pub(crate) fn offset(journal: &[u8], i: usize) -> u32
    requires { i < records journal.now }
    ensures { result ≡ field journal.now (16 * i + 4) 4 }
{
    u32::read(journal, 16 * i + 4)
}
