// What a recovery finds in the journal.
ghost use Rattle.std.specs.Prelude.{◌≡◌, ◌*◌, ◌+◌, ◌<◌};
ghost use Rattle.wire.specs.Bytes.{field};
ghost use Rattle.journal.specs.Journal.{records, kind, fits_in};
ghost use Rattle.steps.specs.Begin.{with_misfit, with_record};

use crate::codes::Kind;
use crate::{begin, records};

// What records say of an area: there is nothing to apply, the words fit, or some do not.
#[derive(Clone, Copy, PartialEq, Eq)]
pub(crate) enum Verdict {
    Nothing,
    Fits,
    Misfits,
}

impl Verdict {
    // With a word in front that does not fit.
    fn with_misfit(self) -> Verdict
        ensures { result ≡ with_misfit self }
    {
        match self {
            Verdict::Nothing => Verdict::Nothing,
            Verdict::Fits | Verdict::Misfits => Verdict::Misfits,
        }
    }

    // With record i in front, over an area of len bytes. A word is tested for first, and no other record's offset is read: with one match on the
    // kind `tl_recover_steps` took a third longer.
    pub(crate) fn with_record(self, journal: &[u8], i: usize, len: usize) -> Verdict
        requires { i < records journal.now }
        ensures { result ≡ with_record (kind journal.now i) (fits_in len (field journal.now (16 * i + 4) 4)) self }
    {
        let kind = records::kind(journal, i);
        if kind == u8::from(Kind::Word) {
            if begin::fits_in(len, records::offset(journal, i)) {
                return self;
            }
            return self.with_misfit();
        }
        match Kind::try_from(kind) {
            Ok(Kind::Commit) => Verdict::Fits,
            Ok(Kind::Word) | Ok(Kind::Empty) | Err(_) => Verdict::Nothing,
        }
    }
}
