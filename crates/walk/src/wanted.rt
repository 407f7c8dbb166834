// The entry that a walk is to remember, and what it has remembered so far.
ghost use Rattle.std.specs.Prelude.{◌≡◌};
ghost use Rattle.walk.specs.Wanted.{wants as wants_rule, nothing_wanted, forgetful, remembered};

use rules::Entry;

// Occurrence n, counted from 0, among the entries with this tag and at least so many bytes of data.
#[derive(Clone, Copy)]
pub struct Wanted {
    pub tag: u32,
    pub least: usize,
    pub n: u64,
}

// How many of the wanted kind are to pass before the wanted one, and that one once it was met.
#[derive(Clone, Copy)]
pub(crate) struct Memory {
    left: u64,
    pub(crate) found: Option<Entry>,
}

impl Wanted {
    // A want that no entry meets: its tag has four bytes, an entry's three. No Option of a want: each entry would be asked twice, whether and which.
    pub fn nothing() -> Wanted
        ensures { result ≡ nothing_wanted }
    {
        Wanted {
            tag: 0x1000000,
            least: 0,
            n: 0,
        }
    }

    // An entry is of the wanted kind.
    fn wants(self, e: Entry) -> bool
        ensures { result ≡ wants_rule self.tag self.least e }
    {
        (e.tag_id == self.tag) & (self.least <= e.data_size as usize)
    }
}

impl Memory {
    // Before the first entry.
    pub(crate) fn new(w: Wanted) -> Memory
        ensures { result ≡ forgetful w }
    {
        Memory {
            left: w.n,
            found: None,
        }
    }

    // The memory behind one entry more.
    pub(crate) fn with(self, w: Wanted, e: Entry) -> Memory
        ensures { result ≡ remembered w e self }
    {
        if !w.wants(e) {
            return self;
        }
        let None = self.found else {
            return self;
        };
        if self.left == 0 {
            return Memory {
                left: 0,
                found: Some(e),
            };
        }
        Memory {
            left: self.left - 1,
            found: None,
        }
    }
}
