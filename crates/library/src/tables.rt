// Parts of lent tables: read, overwritten and filled.
ghost use Rattle.std.specs.Prelude.{◌≡◌, ◌+◌, ◌≤◌, length, take, drop, replicate};
ghost use Rattle.library.specs.Tables.{overwritten};

// So many rows from a place on, as far as the table goes.
pub(crate) fn part<T>(table: &[T], start: usize, len: usize) -> &[T]
    ensures { result.now ≡ take len (drop start table.now) }
{
    let rest = &table[start.min(table.len())..];
    &rest[..len.min(rest.len())]
}

// Writes other rows in the place of those from `at` on.
pub(crate) fn overwrite<T: Copy>(table: &mut [T], at: usize, new: &[T])
    requires { at + length new.now ≤ length table.old }
    ensures { table.new ≡ overwritten table.old at new.now }
{
    table[at..at + new.len()].copy_from_slice(new);
}

// Writes the same value into every row. `fill` of std asks that a clone of the value cannot fail, and of a measure's amounts that is not known.
pub(crate) fn fill<T: Copy>(table: &mut [T], value: T)
    ensures { table.new ≡ replicate (length table.old) value }
{
    for row in table.iter_mut() {
        *row = value;
    }
}
