// The refusals: every way in which a call can decline, and what is said of each.
#![tactic(auto)]

ghost use Rattle.std.specs.Prelude.{◌≡◌, Some};
ghost use Rattle.refusals.specs.Numbers.{number_of};
ghost use Rattle.refusals.specs.Sentences.{line_of, sentence_of};

use std::error::Error;
use std::fmt;

// In the order in which checks run: where several are due, the first is given.
#[derive(Clone, Copy, PartialEq, Eq, Debug)]
pub enum Refusal {
    StoreTooLong = 1,
    TextTooLong,
    SheetLength,
    SheetTooLarge,
    UnknownWordBit,
    TooManyRows,
    CountsDiffer,
    MapTooShort,
    BadOffsets,
    TotalTooLarge,
    ModuleOutOfRange,
    NoRoom,
    TooManyLive,
    NotLive,
    FirstTooLarge,
    IndexOutOfRange,
    OutputTooShort,
}

impl Refusal {
    // The number by which other programs know it.
    pub fn number(self) -> u8
        ensures { result ≡ number_of self }
    {
        self as u8
    }

    // What it says to people, after its number.
    fn sentence(self) -> &'static str
        ensures { result.now ≡ sentence_of self }
    {
        match self {
            Refusal::StoreTooLong => "the store is longer than 1048576 places",
            Refusal::TextTooLong => "the text is longer than 16 bytes",
            Refusal::SheetLength => "the sheet's length is not 8 bytes and 12 more for each row",
            Refusal::SheetTooLarge => "the sheet states more than 2048 rows or modules",
            Refusal::UnknownWordBit => "a word of the sheet has a bit set that means nothing",
            Refusal::TooManyRows => "there are more rows or cells than a column may have",
            Refusal::CountsDiffer => "the parts of a column differ in their number of rows",
            Refusal::MapTooShort => "the validity map has too few bytes for its rows",
            Refusal::BadOffsets => "the offsets of the list column are not in order",
            Refusal::TotalTooLarge => "the total is above 65536 modules",
            Refusal::ModuleOutOfRange => "a row or list names a module beyond the module count",
            Refusal::NoRoom => "the store has no room for what the call brings",
            Refusal::TooManyLive => "more than 1048576 cues would be live",
            Refusal::NotLive => "a retracted cue is not live that often",
            Refusal::FirstTooLarge => "there are fewer modules than lists asked for",
            Refusal::IndexOutOfRange => "no row or list has that number",
            Refusal::OutputTooShort => "the output buffer is too short for the result",
        }
    }
}

impl fmt::Display for Refusal {
    ghost output = { λ r. Some (line_of r) };

    fn fmt<W: fmt::Write>(&self, f: &mut fmt::Formatter<W>) -> fmt::Result {
        let number = self.number();
        let sentence = self.sentence();
        write!(f, "refused {number}: {sentence}")
    }
}

impl Error for Refusal {}
