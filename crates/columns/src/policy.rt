// The null policy: whether nulls are kept or ignored.
ghost use Rattle.std.specs.Prelude.{◌≡◌};
ghost use Rattle.columns.specs.Policies.{passes};

// Whether a cell is let through.
pub fn passes<K: Copy>(ignore: bool, cell: &Option<K>) -> bool
    ensures { result ≡ passes ignore cell.now }
{
    !ignore || cell.is_some()
}
