ghost use Rattle.std.specs.Prelude.{◌≡◌, ℕ, ◌+◌};
ghost use Rattle.meaning.specs.Rows.{row_start, row_end};

use frame::bound::WindowFrameBound;

// Where the ROWS window of row `row` starts, over `total` rows. The window of a row ends where that
// of the next one starts by the same bound. No offset wraps.
pub fn rows_edge(bound: WindowFrameBound, row: u64, total: u32) -> u64
    ensures start { result ≡ row_start bound total row }
    ensures end { (i : ℕ) → row ≡ i + 1 → result ≡ row_end bound total i }
{
    match bound {
        WindowFrameBound::UnboundedPreceding => 0,
        WindowFrameBound::Preceding(n) => row.saturating_sub(n),
        WindowFrameBound::CurrentRow => row,
        WindowFrameBound::Following(n) => row.saturating_add(n).min(u64::from(total)),
        WindowFrameBound::UnboundedFollowing => u64::from(total),
    }
}

// Where the ROWS window of a line starts, over `total` lines. No offset wraps.
pub fn rows_start(bound: WindowFrameBound, line: u32, total: u32) -> u64
    ensures { result ≡ row_start bound total line }
{
    rows_edge(bound, u64::from(line), total)
}

// Where the ROWS window of a line ends, over `total` lines. No offset wraps.
pub fn rows_end(bound: WindowFrameBound, line: u32, total: u32) -> u64
    ensures { result ≡ row_end bound total line }
{
    rows_edge(bound, u64::from(line) + 1, total)
}
