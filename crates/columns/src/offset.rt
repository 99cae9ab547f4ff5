// The rules of offsets.
ghost use Rattle.std.specs.Prelude.{◌≡◌, ◌≤◌};
ghost use Rattle.columns.specs.Offsets.{offsets_keep};

// Whether the offsets of so many rows keep the rules over so many cells.
pub(crate) fn offsets_keep(offsets: &[i32], rows: usize, cells: usize) -> bool
    requires { (rows ≤ 65536) × (cells ≤ 1048576) }
    ensures { result ≡ offsets_keep offsets.now rows cells }
{
    if offsets.len() != rows + 1 {
        return false;
    }
    0 <= offsets[0] && offsets[rows] <= cells as i32 && offsets.is_sorted()
}
