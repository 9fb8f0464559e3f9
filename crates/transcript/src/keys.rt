ghost use Rattle.std.specs.Prelude.{◌≡◌, ℕ, ℤ, pos, ◌-ℤ◌, ◌≤ℤ◌, ◌<ℤ◌, Decides};

pub mod elapsed;
pub mod mark;
pub mod plain;
pub mod turn;

// A kind of key. Its meaning is a whole number for each key, the rank, and a count of order columns.
pub trait KeyKind: Copy {
    ghost columns: { ℕ };

    ghost rank: { Self → ℤ };

    // How many columns the kind orders by.
    fn column_count() -> u32
        ensures { result ≡ columns };

    // Whether the ranks are equal.
    fn same(self, other: Self) -> bool
        ensures { Decides result (rank self ≡ rank other) };

    // Whether this rank is the lesser.
    fn before(self, other: Self) -> bool
        ensures { Decides result (rank self <ℤ rank other) };

    // Whether the other rank exceeds this one by at most n.
    fn within(self, other: Self, n: u64) -> bool
        ensures { Decides result ((rank other -ℤ rank self) ≤ℤ pos n) };
}
