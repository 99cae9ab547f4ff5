// A sheet's body: for each row a word and a cue, low byte first.
ghost use Rattle.std.specs.Prelude.{◌≡◌, ◌↔◌, ◌*◌, ◌%◌, ◌<◌, length, drop, map, nat_lt, IfSome, IsSome, slice_get};
ghost use Rattle.std.specs.Int.{w32, from_le_bytes};
ghost use Rattle.std.specs.List.{list_all};
ghost use Rattle.sheets.specs.Layout.{words_at};
ghost use Rattle.sheets.specs.Reading.{rows_at, rows_from};

use crate::row::{Row, WORD_LIMIT, module_of};
use crate::rows::Rows;

// Words and cues are apart, as in the bytes.
#[derive(Clone, Copy)]
pub(crate) struct Body<'a> {
    pub(crate) words: &'a [[u8; 4]],
    pub(crate) cues: &'a [[u8; 8]],
    ghost level: { length cues.now ≡ length words.now },
}

impl<'a> Body<'a> {
    // The body of so many rows in these bytes, if it fills them.
    pub(crate) fn new(rows: u32, bytes: &'a [u8]) -> Option<Body<'a>>
        ensures fills { IsSome result ↔ (length bytes.now ≡ 12 * rows) }
        ensures count { IfSome result (λ b. length b.words.now ≡ rows) }
        ensures words { IfSome result (λ b. map (from_le_bytes w32) b.words.now ≡ words_at rows bytes.now) }
        ensures rows { IfSome result (λ b. rows_from b.words.now b.cues.now ≡ rows_at rows bytes.now) }
    {
        let rows = rows as usize;
        if bytes.len() != 12 * rows {
            return None;
        }
        let (words, cues) = bytes.split_at(4 * rows);
        let (words, _) = words.as_chunks::<4>();
        let (cues, _) = cues.as_chunks::<8>();
        Some(Body { words, cues })
    }

    // How many rows it has.
    pub(crate) fn len(&self) -> usize
        ensures { result ≡ length (rows_from self.now.words.now self.now.cues.now) }
    {
        self.words.len()
    }

    // Row i, if there is one, and then the next place is a number too.
    pub(crate) fn row(&self, i: usize) -> Option<Row>
        ensures row { result ≡ slice_get (rows_from self.now.words.now self.now.cues.now) i }
        ensures next { IfSome result (λ row. i < usize.MAX) }
    {
        // There are as many cues as words, so one test serves for both.
        if i >= self.words.len() {
            return None;
        }
        Some(Row::read(self.words[i], self.cues[i]))
    }

    // The rows, one after another.
    pub(crate) fn rows(&self) -> Rows<'a>
        ensures { drop result.next (rows_from result.body.words.now result.body.cues.now) ≡ rows_from self.now.words.now self.now.cues.now }
    {
        Rows {
            body: *self,
            next: 0,
        }
    }

    // Whether no word has a bit set that means nothing. One method for this test and the next would have to state what the test
    // that it is given computes, and be no plainer.
    pub(crate) fn words_known(&self) -> bool
        ensures { result ≡ list_all (λ w. nat_lt w 262144) (map (from_le_bytes w32) self.now.words.now) }
    {
        self.words
            .iter()
            .map(|word| u32::from_le_bytes(*word))
            .all(|word| word < WORD_LIMIT)
    }

    // Whether each row's module is one of so many.
    pub(crate) fn modules_known(&self, modules: u32) -> bool
        ensures { result ≡ list_all (λ w. nat_lt (w % 65536) modules) (map (from_le_bytes w32) self.now.words.now) }
    {
        self.words
            .iter()
            .map(|word| u32::from_le_bytes(*word))
            .all(|word| module_of(word) < modules)
    }
}
