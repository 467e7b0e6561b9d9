// Tags tell rows of as many values apart: one is a subset of another only where they are equal, and equal rows have one tag.
ghost use Rattle.std.specs.Prelude.{◌≡◌, replicate};
ghost use Rattle.sets.specs.Rows.{bits, tag_of};
ghost use Rattle.minimal.specs.Code.Marking.{tag_words, has_tag, with_tag, ToTest};

use sets::Row;

// The words that the tags fill, a bit for each tag that a row can have. (No limit of the request.)
const TAG_WORDS: usize = 8;

// The tags of some rows.
#[derive(Clone, Copy)]
pub struct Tags {
    words: [u64; TAG_WORDS],
}

impl Tags {
    // No row's tag.
    pub fn none() -> Tags
        ensures { result.words ≡ replicate tag_words 0 }
    {
        Tags {
            words: [0; TAG_WORDS],
        }
    }

    // The row's tag is among the tags.
    #[tactic(auto, using(sets::proofs::RowValues::tag_less))]
    fn has(&self, row: Row) -> bool
        ensures { result ≡ has_tag self.now.words (tag_of (bits row)) }
    {
        let tag = row.tag();
        sets::word::has(self.words[tag / sets::word::BITS], tag % sets::word::BITS)
    }

    // Puts the row's tag among the tags.
    #[tactic(auto, using(sets::proofs::RowValues::tag_less))]
    pub fn add(&mut self, row: Row)
        ensures { self.new.words ≡ with_tag self.old.words (tag_of (bits row)) }
    {
        let tag = row.tag();
        let word = tag / sets::word::BITS;
        self.words[word] = sets::word::with(self.words[word], tag % sets::word::BITS);
    }

    // How many of the minimal rows found so far have to be tested against a row. Those from `base` on have as many values as the row, and these
    // tags: one of them is a subset only where it is equal, and where the row's tag is not among theirs none is.
    pub fn to_test(&self, row: Row, base: usize, found: usize) -> usize
        ensures { ToTest base found self.now.words (tag_of (bits row)) result }
    {
        if self.has(row) { found } else { base }
    }
}
