// The hide marks, in words: desk k has the `Sheet::WORDS` words from that many times k on, and a word is a set of table rows, one for each bit.
ghost use Rattle.std.specs.Prelude.{◌≡◌, ◌<◌};
ghost use Rattle.sets.specs.Limits.{most_rows, most_desks};
ghost use Rattle.sheet.specs.Sheets.{word, hides, marked_right};
ghost use Rattle.sheet.specs.Changes.{hiding, showing};
ghost use Rattle.sheet.specs.Code.Surveys.{word_right};

use crate::Sheet;

// Which word of marks has table row n of the desk.
fn word_of(desk: usize, n: usize) -> usize
    requires { (desk < most_desks) × (n < most_rows) }
    ensures { result ≡ word desk n }
{
    desk * Sheet::WORDS + n / sets::word::BITS
}

impl Sheet {
    // The desk hides table row n.
    #[tactic(auto, unfolding(crate::specs::Sheets::hides))]
    pub fn hides(&self, desk: usize, n: usize) -> bool
        requires { (desk < most_desks) × (n < most_rows) }
        ensures { result ≡ hides self.now.marks desk n }
    {
        sets::word::has(self.marks[word_of(desk, n)], n % sets::word::BITS)
    }

    // Table row n is hidden at the desk.
    #[tactic(auto, unfolding(crate::specs::Changes::hide))]
    pub fn hide(&mut self, desk: usize, n: usize)
        requires { (desk < most_desks) × (n < most_rows) }
        ensures { self.new ≡ hiding self.old desk n }
    {
        let at = word_of(desk, n);
        self.marks[at] = sets::word::with(self.marks[at], n % sets::word::BITS);
    }

    // No row is hidden at the desk any more.
    pub fn show_all(&mut self, desk: usize)
        requires { desk < most_desks }
        ensures { self.new ≡ showing self.old desk }
    {
        let first = desk * Sheet::WORDS;
        self.marks[first..first + Sheet::WORDS].fill(0);
    }

    // Word i of the marks has no row, or its desk exists and its highest row is below T.
    #[tactic(auto, unfolding(crate::specs::Code::Surveys::word_right))]
    fn word_right(&self, i: usize, word: u64) -> bool
        ensures { result ≡ word_right self.now i word }
    {
        let top = sets::word::BITS - word.leading_zeros() as usize;
        top == 0
            || i / Sheet::WORDS < self.desks
                && i % Sheet::WORDS * sets::word::BITS + top <= self.rows
    }

    // Marks stand only for existing desks and rows below T.
    #[tactic(auto, using(crate::proofs::Markings::marked_wrong))]
    pub fn marks_right(&self) -> bool
        ensures { result ≡ marked_right self.now }
    {
        for (i, &word) in self.marks.iter().enumerate() {
            if !self.word_right(i, word) {
                return false;
            }
        }
        true
    }
}
