// Rows of tables, by their numbers, which are counted from 1.

ghost use Rattle.std.specs.Prelude.{◌≡◌, ◌+◌, ◌<◌, option_map, length, None, MatchOption};
ghost use Rattle.da_base.specs.Words.{nth};

/// The row of this number. `None` exactly where there is none.
pub fn row<T>(rows: &[T], number: u32) -> Option<&T>
    ensures { option_map (λ r. r.now) result ≡ nth rows.now number }
{
    match number {
        0 => None,
        number => rows.get(number as usize - 1),
    }
}

/// The index of the row of this number. `None` exactly where there is none.
pub fn row_index<T>(rows: &[T], number: u32) -> Option<usize>
    ensures { MatchOption result (nth rows.now number ≡ None) (λ index. (number ≡ index + 1) × (index < length rows.now)) }
{
    match number {
        0 => None,
        number if (number as usize) <= rows.len() => Some(number as usize - 1),
        _ => None,
    }
}
