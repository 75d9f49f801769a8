ghost use Rattle.std.specs.Prelude.{◌≡◌, ◌++◌, ◌+◌, ◌≤◌, length, take, drop, slice_index_or};

// The entry at a place of a table: `past` past its end.
pub fn entry_or<T: Copy + Drop>(table: &[T], at: usize, past: T) -> T
    ensures { result ≡ slice_index_or table.now at past }
{
    table.get(at).copied().unwrap_or(past)
}

// Writes `words` over `table` from `at` on; what is before and past them stays.
pub fn write<T: Copy + Drop>(words: &[T], table: &mut [T], at: usize)
    requires { at + length words.now ≤ length table.old }
    ensures { table.new ≡ take at table.old ++ (words.now ++ drop (at + length words.now) table.old) }
{
    table[at..at + words.len()].copy_from_slice(words);
}
