// One row of a sheet, and what a whole sheet comes to.
ghost use Rattle.std.specs.Prelude.{◌≡◌, ◌%◌, Some};
ghost use Rattle.std.specs.Int.{w32, w64, from_le_bytes};
ghost use Rattle.sheets.specs.Reading.{row_from};
ghost use Rattle.sheets.specs.Report.{report_of};

use std::fmt;

// Bits 0 to 15 of a word are the number of its module.
const MODULE_BITS: u32 = (1 << 16) - 1;

const NULL_BIT: u32 = 1 << 16;

const FILTERED_BIT: u32 = 1 << 17;

// Bits 18 to 31 mean nothing.
pub(crate) const WORD_LIMIT: u32 = 1 << 18;

// The flag stands beside the cue, since a null row holds one too, which an Option would lose.
#[derive(Clone, Copy, PartialEq, Eq, Debug)]
pub struct Row {
    // the number of its module
    pub group: u32,
    pub null: bool,
    pub filtered: bool,
    pub cue: i64,
}

impl Row {
    // The row that a word and a cue say, low byte first.
    #[tactic(auto, using(crate::proofs::Bits::bit_16, crate::proofs::Bits::bit_17))]
    pub(crate) fn read(word: [u8; 4], cue: [u8; 8]) -> Row
        ensures { result ≡ row_from (from_le_bytes w32 word) (from_le_bytes w64 cue) }
    {
        let word = u32::from_le_bytes(word);
        Row {
            group: module_of(word),
            null: word & NULL_BIT != 0,
            filtered: word & FILTERED_BIT != 0,
            cue: i64::from_le_bytes(cue),
        }
    }
}

// The number of the module that a word names.
pub(crate) fn module_of(word: u32) -> u32
    ensures { result ≡ word % 65536 }
{
    word & MODULE_BITS
}

#[derive(Clone, Copy, PartialEq, Eq, Debug)]
pub struct Summary {
    pub rows: usize,
    pub modules: usize,
    // rows that are not filtered out
    pub accepted: usize,
    // accepted rows that hold no cue
    pub nulls: usize,
    pub filtered: usize,
}

impl fmt::Display for Summary {
    ghost output = { λ s. Some (report_of s) };

    fn fmt<W: fmt::Write>(&self, f: &mut fmt::Formatter<W>) -> fmt::Result {
        let rows = self.rows;
        let modules = self.modules;
        let accepted = self.accepted;
        let nulls = self.nulls;
        let filtered = self.filtered;
        write!(
            f,
            "rows {rows}\nmodules {modules}\naccepted {accepted}\nnulls {nulls}\nfiltered out {filtered}"
        )
    }
}
