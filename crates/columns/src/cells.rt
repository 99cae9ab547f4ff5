// Cells over a map and cues that the caller owns, as many of the one as of the other.
ghost use Rattle.std.specs.Prelude.{◌≡◌, length};
ghost use Rattle.bitmap.specs.Maps.{row_count};

use bitmap::Validity;

// What a caller passes for cells, unchecked: how many there are, a validity map and the cues, apart as the format has them.
#[derive(Clone, Copy)]
pub struct CellParts<'a, K> {
    pub rows: usize,
    pub map: &'a [u8],
    pub cues: &'a [K],
}

// The cells that were passed, checked but not copied.
#[derive(Drop)]
pub struct Cells<'a, K> {
    pub(crate) map: Validity<'a>,
    pub(crate) cues: &'a [K],
    ghost level: { length cues.now ≡ row_count map },
}
