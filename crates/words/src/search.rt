// The words that a plan changes: words 0 and 1 and those of its stretch are looked at, and no others.
ghost use Rattle.std.specs.Prelude.{◌≡◌, ℕ, ◌+◌, ◌-◌, ◌*◌, ◌/◌, ◌%◌, ◌≤◌, ◌&&◌, ltb, not, [], length};
ghost use Rattle.journal.specs.Journal.{alike, words_from, changed_words};
ghost use Rattle.plan.specs.Plan.{after};
ghost use Rattle.words.specs.Words.{next_offset};

use crate::Edit;

impl Edit<'_> {
    // Whether the eight bytes from `at` on stay as they are.
    fn same_word(&self, at: usize) -> bool
        requires { at + 8 ≤ length self.now.area.now }
        ensures { result ≡ alike self.now.area.now (after self.now.plan self.now.area.now self.now.data.now) at 8 }
    {
        (at..at + 8).all(|i| self.area[i] == self.byte_after(i))
    }

    // Whether word w is one of the area's, and changes.
    fn changes(&self, w: usize) -> bool
        ensures { let old = self.now.area.now in
            result ≡ (ltb w (length old / 8) && not (alike old (after self.now.plan old self.now.data.now) (8 * w) 8)) }
    {
        w < self.area.len() / 8 && !self.same_word(8 * w)
    }

    // The word behind that of the header of the void behind the stretch: none changes from there on.
    fn end(&self) -> usize
        ensures { let old = self.now.area.now in
            (w : ℕ) → result ≤ w → words_from ((length old - 8 * w) / 8) (8 * w) old (after self.now.plan old self.now.data.now) ≡ [] }
    {
        let p = self.plan;
        let end = p.at + p.padding + 16 + self.data.len() + p.zeros;
        end.div_ceil(8)
    }

    // The offset of the first word from `from` on that changes, or the area's length where there is none.
    pub fn next_changed(&self, from: usize) -> usize
        requires { (from ≤ length self.now.area.now) × (from % 8 ≡ 0) }
        ensures { let old = self.now.area.now in
            result ≡ next_offset (length old) (words_from ((length old - from) / 8) from old (after self.now.plan old self.now.data.now)) }
    {
        let first = from / 8;
        let found = (first..2)
            .chain(first.max(self.plan.at / 8)..self.end())
            .find(|w| self.changes(*w));
        match found {
            Some(w) => 8 * w,
            None => self.area.len(),
        }
    }

    // The number of words that change.
    pub fn changed_words(&self) -> usize
        ensures { result ≡ length (changed_words self.now.area.now (after self.now.plan self.now.area.now self.now.data.now)) }
    {
        (0..2)
            .chain(self.plan.at / 8..self.end())
            .filter(|w| self.changes(*w))
            .count()
    }
}
