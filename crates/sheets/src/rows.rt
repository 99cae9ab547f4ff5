// The rows of a body, one after another.
ghost use Rattle.std.specs.Iterator.{YieldsFirst, item_count};
ghost use Rattle.sheets.specs.Steps.{rows_left};

use crate::body::Body;
use crate::row::Row;

// The next row is known by its place, which words and cues share. Two halves that shrink as rows are taken would be tested twice
// for each row.
#[derive(Drop)]
pub(crate) struct Rows<'a> {
    pub(crate) body: Body<'a>,
    pub(crate) next: usize,
}

impl Iterator for Rows<'_> {
    type Item = Row;

    ghost next_gives = { YieldsFirst rows_left };

    ghost remaining = { item_count rows_left };

    fn next(&mut self) -> Option<Row> {
        let row = self.body.row(self.next)?;
        self.next += 1;
        Some(row)
    }
}
