// Sheets: a show's rows as bytes, read and summed up.
#![tactic(auto)]

mod body;
mod row;
mod rows;
mod sheet;

ghost use Rattle.std.specs.Prelude.{◌≡◌, ◌↔◌, length, IfOk, IsOk, slice_index_or};
ghost use Rattle.refusals.specs.Checks.{outcome_of, unless};
ghost use Rattle.sheets.specs.Layout.{GoodSheet, modules_in};
ghost use Rattle.sheets.specs.Reading.{rows_at};
ghost use Rattle.sheets.specs.Sheets.{body_checks, module_count, no_row, row_checks, rows_of, sheet_checks, sheet_rows, summary_of};

use body::Body;
use refusals::Refusal;
pub use row::{Row, Summary};
pub use sheet::Sheet;

// The most rows, and the most modules, that a sheet may state.
pub const MAX_SIZE: u32 = 2048;

impl<'a> Sheet<'a> {
    // The sheet in these bytes.
    pub fn new(bytes: &'a [u8]) -> Result<Sheet<'a>, Refusal>
        ensures outcome { outcome_of result ≡ unless (sheet_checks bytes.now) tt }
        ensures good { IsOk result ↔ GoodSheet bytes.now }
        ensures rows { IfOk result (λ s. sheet_rows s ≡ rows_of bytes.now) }
        ensures modules { IfOk result (λ s. module_count s ≡ modules_in bytes.now) }
    {
        let (rows, rest) = bytes.split_first_chunk::<4>().ok_or(Refusal::SheetLength)?;
        let (modules, body) = rest.split_first_chunk::<4>().ok_or(Refusal::SheetLength)?;
        let rows = u32::from_le_bytes(*rows);
        let modules = u32::from_le_bytes(*modules);
        Sheet::from_body(rows, modules, body)
    }

    // The sheet whose header states these sizes, and whose bytes go on with this body.
    fn from_body(rows: u32, modules: u32, body: &'a [u8]) -> Result<Sheet<'a>, Refusal>
        ensures outcome { outcome_of result ≡ unless (body_checks rows modules body.now) tt }
        ensures rows { IfOk result (λ s. sheet_rows s ≡ rows_at rows body.now) }
        ensures modules { IfOk result (λ s. module_count s ≡ modules) }
    {
        let body = Body::new(rows, body).ok_or(Refusal::SheetLength)?;
        if rows > MAX_SIZE || modules > MAX_SIZE {
            return Err(Refusal::SheetTooLarge);
        }
        if !body.words_known() {
            return Err(Refusal::UnknownWordBit);
        }
        if !body.modules_known(modules) {
            return Err(Refusal::ModuleOutOfRange);
        }
        Ok(Sheet {
            body,
            modules: modules as usize,
        })
    }

    pub fn rows(&self) -> usize
        ensures { result ≡ length (sheet_rows self.now) }
    {
        self.body.len()
    }

    pub fn modules(&self) -> usize
        ensures { result ≡ module_count self.now }
    {
        self.modules
    }

    pub fn row(&self, i: usize) -> Result<Row, Refusal>
        ensures { result ≡ unless (row_checks self.now i) (slice_index_or (sheet_rows self.now) i no_row) }
    {
        self.body.row(i).ok_or(Refusal::IndexOutOfRange)
    }

    // How many rows there are of each sort.
    pub fn summary(&self) -> Summary
        ensures { result ≡ summary_of (module_count self.now) (sheet_rows self.now) }
    {
        let mut accepted = 0;
        let mut nulls = 0;
        for row in self.body.rows() {
            if !row.filtered {
                accepted += 1;
                nulls += usize::from(row.null);
            }
        }
        Summary {
            rows: self.body.len(),
            modules: self.modules,
            accepted,
            nulls,
            filtered: self.body.len() - accepted,
        }
    }
}

// What the sheet in these bytes comes to, or why it is refused.
pub fn summarize(bytes: &[u8]) -> Result<Summary, Refusal>
    ensures { result ≡ unless (sheet_checks bytes.now) (summary_of (modules_in bytes.now) (rows_of bytes.now)) }
{
    Ok(Sheet::new(bytes)?.summary())
}
