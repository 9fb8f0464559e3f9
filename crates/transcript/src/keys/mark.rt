use crate::keys::KeyKind;

// Milliseconds before or after a mark.
#[derive(Clone, Copy, Debug, PartialEq, Eq, PartialOrd, Ord)]
pub struct Mark(pub i64);

impl KeyKind for Mark {
    ghost columns = { 1 };

    ghost rank = { λ k. k.0 };

    fn column_count() -> u32 {
        1
    }

    fn same(self, other: Mark) -> bool {
        self == other
    }

    fn before(self, other: Mark) -> bool {
        self < other
    }

    fn within(self, other: Mark, n: u64) -> bool {
        i128::from(other.0) - i128::from(self.0) <= i128::from(n)
    }
}
