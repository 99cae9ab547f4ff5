// A validity map: which rows of a column are valid, over bytes that the caller owns.
ghost use Rattle.std.specs.Prelude.{◌≤◌, length};
ghost use Rattle.bitmap.specs.Bits.{bytes_for};

// The number of rows stands beside the bytes, which hold eight rows each and may be more than the rows need.
#[derive(Clone, Copy)]
pub struct Validity<'a> {
    pub(crate) bytes: &'a [u8],
    pub(crate) rows: usize,
    ghost few: { rows ≤ 1048576 },
    ghost enough: { bytes_for rows ≤ length bytes.now },
}
